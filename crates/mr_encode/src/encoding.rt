//! A whole image from a whole data file.

ghost use Rattle.std.specs.Prelude.{◌≡◌, ◌+◌, ◌*◌, ◌≤◌, ◌++◌, false, length, vec_capacity, vec_len, IfOk, IfSome, IsErrOf, OnErr, OnOk};
ghost use Rattle.std.specs.List.{range_with_len, flat_map};
ghost use Rattle.std.specs.Option.{ForSome};
ghost use Rattle.mr_io.specs.Counts.{HasCause, Rose};
ghost use Rattle.mr_io.specs.Sights.{sight_with};
ghost use Rattle.mr_image.specs.Images.{body_bytes, code_image, every_stripe, image_body, stripe_symbols};
ghost use Rattle.mr_image.specs.Heads.{image_bytes};
ghost use Rattle.mr_encode.specs.Data.{columns_of, data_bytes};

use crate::stripes::{Encoder, encode_stripe, is_systematic};
use mr_bits::Matrix;
use mr_image::{HEAD_BYTES, ImageHead};
use mr_io::{Eye, Failed, FilesError};
use mr_kern::XorKernel;
use std::alloc::Global;

/// The image file of the codewords of a data file: symbol `i` of a stripe is the XOR of the stripe's symbols of data at
/// the columns of row `i` of the matrix.
///
/// The data file has no head, and for each stripe in turn a symbol for each column. The head is of the
/// matrix's devices and symbols, and of version 1, in which the devices stay where they are. All memory is
/// taken first: room for the whole image file, for one stripe, and for the data of one stripe, where they
/// do not stand first in it; so no more of the data file is held. Each stripe's data are read by one call.
///
/// It answers `Memory` for want of memory, and `Failed` where a read failed.
pub fn encode<E: Eye>(
    alloc: Global,
    eye: &mut E,
    matrix: &Matrix,
    head: &ImageHead,
    kernel: &XorKernel,
) -> Result<Vec<u8>, FilesError>
    requires devices { head.now.devices ≡ matrix.now.devices }
    requires symbols { head.now.symbols_per_device ≡ matrix.now.symbols_per_device }
    requires version { head.now.version ≡ 1 }
    requires eye { IfSome (E.sight eye.old).bytes (λ bytes.
        length bytes ≡ data_bytes head.now matrix.now) }
    ensures image { IfOk result (λ image. IfSome (E.sight eye.old).bytes (λ bytes.
        image.items ≡ image_bytes head.now (code_image head.now (every_stripe matrix.now)
        (columns_of head.now matrix.now.columns bytes)))) }
    ensures taken { OnOk result (E.sight eye.new ≡ sight_with (E.sight eye.old)
        (data_bytes head.now matrix.now)) }
    ensures told { (E.sight eye.new).bytes ≡ (E.sight eye.old).bytes }
    ensures duty { (E.sight eye.new).duty ≡ (E.sight eye.old).duty }
    ensures later { E.faults eye.old ≤ E.faults eye.new }
    ensures quiet { OnOk result (E.faults eye.new ≡ E.faults eye.old) }
    ensures cause { IsErrOf result FilesError.Failed → Rose (E.faults eye.old) (E.faults eye.new) }
{
    let size = head.bytes() as usize;
    let body = head.stripes() as usize * head.symbols() as usize * size;
    let encoder = Encoder {
        matrix,
        head,
        kernel,
        is_systematic: is_systematic(matrix),
    };
    let mut columns = vec![in alloc; 0; held_bytes(&encoder)]?;
    let mut stripe = vec![in alloc; 0; matrix.shape().symbols() as usize * size]?;
    let mut image = Vec::with_capacity(alloc, HEAD_BYTES as usize + body)?;
    append(&mut image, &head.print());
    match encode_stripes(eye, &encoder, &mut columns, &mut stripe, &mut image) {
        Ok(()) => Ok(image),
        Err(Failed) => Err(FilesError::Failed),
    }
}

/// How many bytes of data are held beside a stripe: none where they are read straight to their places.
fn held_bytes(encoder: &Encoder) -> usize
    ensures { encoder.now.is_systematic ≡ false → result
        ≡ encoder.now.matrix.now.columns * encoder.now.head.now.symbol_bytes }
{
    if encoder.is_systematic {
        return 0;
    }
    encoder.matrix.shape().k() as usize * encoder.head.bytes() as usize
}

/// Appends all symbols of the image, for which there is room. Each stripe is made in `stripe`, near the
/// processor, and then appended: the image is not cleared before it is filled. `columns` takes the data of
/// one stripe at a time, where they do not stand first in it.
fn encode_stripes<E: Eye>(
    eye: &mut E,
    encoder: &Encoder,
    columns: &mut [u8],
    stripe: &mut [u8],
    image: &mut Vec<u8>,
) -> Result<(), Failed>
    requires rows { length encoder.now.matrix.now.rows ≡ stripe_symbols encoder.now.head.now }
    requires eye { IfSome (E.sight eye.old).bytes (λ bytes.
        length bytes ≡ data_bytes encoder.now.head.now encoder.now.matrix.now) }
    requires columns { encoder.now.is_systematic ≡ false → length columns.old
        ≡ encoder.now.matrix.now.columns * encoder.now.head.now.symbol_bytes }
    requires stripe { length stripe.old
        ≡ length encoder.now.matrix.now.rows * encoder.now.head.now.symbol_bytes }
    requires room { vec_len image.old + body_bytes encoder.now.head.now ≤ vec_capacity image.old }
    ensures body { OnOk result (ForSome (E.sight eye.old).bytes (λ bytes.
        image.new.items ≡ image.old.items ++ image_body encoder.now.head.now
        (code_image encoder.now.head.now (every_stripe encoder.now.matrix.now)
        (columns_of encoder.now.head.now encoder.now.matrix.now.columns bytes)))) }
    ensures taken { OnOk result (E.sight eye.new ≡ sight_with (E.sight eye.old)
        (data_bytes encoder.now.head.now encoder.now.matrix.now)) }
    ensures told { (E.sight eye.new).bytes ≡ (E.sight eye.old).bytes }
    ensures duty { (E.sight eye.new).duty ≡ (E.sight eye.old).duty }
    ensures cause { HasCause (E.faults eye.old) (E.faults eye.new) result }
{
    for number in 0..encoder.head.stripes() {
        encode_stripe(eye, encoder, number, columns, stripe)?;
        append(image, stripe);
    }
    Ok(())
}

/// Appends bytes for which there is room.
fn append(image: &mut Vec<u8>, bytes: &[u8])
    requires { vec_len image.old + length bytes.now ≤ vec_capacity image.old }
    ensures items { image.new.items ≡ image.old.items ++ bytes.now }
    ensures len { vec_len image.new ≡ vec_len image.old + length bytes.now }
    ensures capacity { vec_capacity image.old ≤ vec_capacity image.new }
{
    image.extend_from_slice(bytes).unwrap();
}
