ghost use Rattle.std.specs.Prelude.{◌≡◌, ◌+◌, ◌*◌, ◌<◌, ◌≤◌, ℕ, IfOk, IfErr, Ok, length};
ghost use Rattle.mr_image.specs.Images.{Layout, IsLayout, stripe_symbols, body_bytes, place};
ghost use Rattle.mr_image.specs.Rotated.{rotations};
ghost use Rattle.mr_image.specs.Heads.{head_bytes, file_bytes, checked_layout, has_mark, has_marks, version_of, with_version, number_at, is_of_shape, read_head, IsSpelled};
ghost use Rattle.mr_image.specs.HeadFaults.{IsHeadFault};

use crate::faults::{HeadFault, ImageKind};
use crate::limits::{HEAD_BYTES, IMAGE_LIMIT, SYMBOL_LIMIT};
use mr_bits::{Large, Shape, What};
use std::marker::Model;

/// The first eight bytes of an image file of version 1.
const FIRST_MARK: [u8; 8] = *b"MRIMAGE1";

/// The first eight bytes of an image file of version 2.
const SECOND_MARK: [u8; 8] = *b"MRIMAGE2";

/// The last eight bytes of a head.
const ZEROS: [u8; 8] = [0; 8];

/// The head of an image file: the version, 1 or 2, `n` devices with `w` symbols each in every
/// stripe, `bytes` in a symbol, and `stripes`.
///
/// There are at least one device and one symbol, at most 128 symbols in a stripe, in a symbol 8 to
/// 65,536 bytes, a multiple of 8, and in all symbols together at most 268,435,456 bytes.
#[derive(Clone, Copy, PartialEq, Eq, Debug)]
pub struct ImageHead {
    version: u8,
    n: u32,
    w: u32,
    bytes: u32,
    stripes: u32,
}

impl Model for ImageHead {
    ghost use Rattle.mr_image.specs.Images.{Layout, IsLayout};

    ghost Value = { Layout };

    ghost view = { λ h. record {
      version = h.version;
      devices = h.n;
      symbols_per_device = h.w;
      symbol_bytes = h.bytes;
      stripes = h.stripes;
    } };

    ghost invariant = { λ h. IsLayout (record {
      version = h.version;
      devices = h.n;
      symbols_per_device = h.w;
      symbol_bytes = h.bytes;
      stripes = h.stripes;
    }) };

    ghost inverse = { λ l. record {
      version = l.version;
      n = l.devices;
      w = l.symbols_per_device;
      bytes = l.symbol_bytes;
      stripes = l.stripes;
    } };
}

impl ImageHead {
    /// The head of an image of version 1 for a code of this shape, with symbols of `bytes` bytes.
    ///
    /// It answers `Bad(Bytes)` where `bytes` is 0 or no multiple of 8, then `Large` with
    /// `SymbolBytes` and `bytes` where that is above 65,536, and then `Large` with `ImageBytes` and
    /// the bytes of all symbols where these are above 268,435,456.
    pub fn new(shape: Shape, bytes: u32, stripes: u32) -> Result<ImageHead, HeadFault>
        ensures { result ≡ checked_layout shape bytes stripes }
    {
        if bytes == 0 || bytes % 8 != 0 {
            return Err(HeadFault::Bad(ImageKind::Bytes));
        }
        if bytes > SYMBOL_LIMIT {
            return Err(HeadFault::Large(Large {
                what: What::SymbolBytes,
                number: u64::from(bytes),
            }));
        }
        let body = u64::from(stripes) * u64::from(shape.symbols()) * u64::from(bytes);
        if body > IMAGE_LIMIT {
            return Err(HeadFault::Large(Large {
                what: What::ImageBytes,
                number: body,
            }));
        }
        Ok(ImageHead {
            version: 1,
            n: shape.n(),
            w: shape.w(),
            bytes,
            stripes,
        })
    }

    /// The head that the first 32 bytes of a file of `len` bytes spell, for a code of this shape.
    ///
    /// It answers `Bad(Head)` where the bytes have not the marks of a head, then `Bad(Shape)` where
    /// the devices or the symbols of each are not the shape's, then what `new` answers, and then
    /// `Bad(Length)` where `len` is not the length of the head and all symbols.
    pub fn read(head: &[u8; 32], shape: Shape, len: u64) -> Result<ImageHead, HeadFault>
        requires { HEAD_BYTES ≤ len }
        ensures value { result ≡ read_head head.now shape len }
        ensures fault { IfErr result (IsHeadFault head.now shape len) }
        ensures read { IfOk result (IsSpelled head.now shape len) }
        ensures spelled { (l : Layout) → IsLayout l → IsSpelled head.now shape len l
            → result ≡ Ok l }
    {
        read_layout(head, shape, len)
    }

    /// The first 32 bytes of a file with this head.
    #[tactic(auto, unfolding(crate::specs::Heads::head_bytes))]
    pub fn print(&self) -> [u8; 32]
        ensures { result ≡ head_bytes self.now }
    {
        let mut head = [0; 32];
        head[..8].copy_from_slice(&FIRST_MARK);
        head[7] = b'0' + self.version;
        head[8..12].copy_from_slice(&self.n.to_le_bytes());
        head[12..16].copy_from_slice(&self.w.to_le_bytes());
        head[16..20].copy_from_slice(&self.bytes.to_le_bytes());
        head[20..24].copy_from_slice(&self.stripes.to_le_bytes());
        head
    }

    /// The version: in 1 each stripe has the code of the matrix, and in 2 its
    /// devices move on by one with each stripe.
    pub fn version(&self) -> u32
        ensures number { result ≡ self.now.version }
        ensures limits { IsLayout self.now }
    {
        u32::from(self.version)
    }

    /// How many rotations of the matrix are in use: in version 2 one for each stripe, up to the
    /// number of the devices, and that by 0 where there is no stripe.
    pub fn rotations(&self) -> u32
        ensures { result ≡ rotations self.now }
    {
        if self.version == 2 {
            self.n.min(self.stripes).max(1)
        } else {
            1
        }
    }

    /// The same head with version 2.
    pub fn rotated(self) -> ImageHead
        ensures { result ≡ with_version 2 self }
    {
        ImageHead { version: 2, ..self }
    }

    /// How many devices there are.
    pub fn n(&self) -> u32
        ensures { result ≡ self.now.devices }
    {
        self.n
    }

    /// How many symbols each device has in a stripe.
    pub fn w(&self) -> u32
        ensures { result ≡ self.now.symbols_per_device }
    {
        self.w
    }

    /// How many symbols a stripe has.
    pub fn symbols(&self) -> u32
        ensures count { result ≡ stripe_symbols self.now }
        ensures limits { IsLayout self.now }
    {
        self.n * self.w
    }

    /// How many bytes a symbol has.
    pub fn bytes(&self) -> u32
        ensures number { result ≡ self.now.symbol_bytes }
        ensures limits { IsLayout self.now }
    {
        self.bytes
    }

    /// How many stripes there are.
    pub fn stripes(&self) -> u32
        ensures number { result ≡ self.now.stripes }
        ensures limits { IsLayout self.now }
    {
        self.stripes
    }

    /// Where symbol `symbol` of stripe `stripe` begins in the file; it
    /// ends within the file. Both are in range.
    pub fn place(&self, stripe: u32, symbol: u8) -> u64
        requires stripe { stripe < self.now.stripes }
        requires symbol { symbol < stripe_symbols self.now }
        ensures place { result ≡ place self.now stripe symbol }
        ensures within { result + self.now.symbol_bytes ≤ file_bytes self.now }
    {
        let before = u64::from(stripe) * u64::from(self.symbols()) + u64::from(symbol);
        HEAD_BYTES + before * u64::from(self.bytes)
    }

    /// How many bytes a file with this head has.
    pub fn file_bytes(&self) -> u64
        ensures { result ≡ file_bytes self.now }
    {
        HEAD_BYTES + u64::from(self.stripes) * u64::from(self.symbols()) * u64::from(self.bytes)
    }
}

/// The head that these bytes spell for a file of `len` bytes and
/// a code of this shape, or the first fault.
#[tactic(auto, unfolding(crate::specs::Heads::read_head, crate::specs::Heads::version_of))]
fn read_layout(head: &[u8; 32], shape: Shape, len: u64) -> Result<ImageHead, HeadFault>
    ensures { result ≡ read_head head.now shape len }
{
    if !has_head_marks(head) {
        return Err(HeadFault::Bad(ImageKind::Head));
    }
    if !is_head_of(head, shape) {
        return Err(HeadFault::Bad(ImageKind::Shape));
    }
    let image = ImageHead::new(shape, read_number(head, 16), read_number(head, 20))?;
    if len != image.file_bytes() {
        return Err(HeadFault::Bad(ImageKind::Length));
    }
    if is_second(head) {
        return Ok(image.rotated());
    }
    Ok(image)
}

/// Whether bytes 0 to 7 and 24 to 31 are those of a head.
#[tactic(auto, unfolding(crate::specs::Heads::has_marks, crate::specs::Heads::has_mark))]
fn has_head_marks(head: &[u8; 32]) -> bool
    ensures { result ≡ has_marks head.now }
{
    let mark = &head[..8];
    let end = &head[24..];
    (mark == FIRST_MARK.as_slice() || mark == SECOND_MARK.as_slice()) && end == ZEROS.as_slice()
}

/// Whether the mark is that of version 2.
#[tactic(auto, unfolding(crate::specs::Heads::has_mark))]
fn is_second(head: &[u8; 32]) -> bool
    ensures { result ≡ has_mark 2 head.now }
{
    let mark = &head[..8];
    mark == SECOND_MARK.as_slice()
}

/// Whether the devices and the symbols of each are those of this shape.
fn is_head_of(head: &[u8; 32], shape: Shape) -> bool
    ensures { result ≡ is_of_shape shape head.now }
{
    read_number(head, 8) == shape.n() && read_number(head, 12) == shape.w()
}

/// The number of the four bytes from `at` on, the lowest first.
#[tactic(auto, unfolding(crate::specs::Heads::number_at))]
fn read_number(head: &[u8; 32], at: usize) -> u32
    requires { at + 4 ≤ 32 }
    ensures { result ≡ number_at at head.now }
{
    let mut number = [0; 4];
    number.copy_from_slice(&head[at..at + 4]);
    u32::from_le_bytes(number)
}
