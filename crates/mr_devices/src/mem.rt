//! Device files in memory.

ghost use Rattle.std.specs.Prelude.{◌≡◌, ℕ, List, ◌+◌, ◌-◌, ◌<◌, ◌≤◌, ◌^◌, ◌++◌, Some, [], chars, drop, get_or, length, map, replicate, set, take, vec_len, IfOk, IsErrOf, MatchOption, OnErr, OnOk, None};
ghost use Rattle.mr_io.specs.Counts.{HasCause, Rose};
ghost use Rattle.mr_io.specs.FilesStates.{contents_of, file_of};
ghost use Rattle.mr_devices.specs.Writing.{IsWritten, Writes, WritesPart, opening};
ghost use Rattle.mr_devices.specs.MemStates.{shelf_of};

use crate::counts::one_more;
use crate::devices::Devices;
use mr_bits::NoMemory;
use mr_io::{Failed, FilesError, Text};
use std::alloc::Global;
use std::marker::Model;

/// Device files in memory. Each that is opened is a copy of its own, and writes fail where they are told to.
#[derive(Drop)]
pub struct MemDevices {
    alloc: Global,
    files: Vec<(Text, Vec<u8>)>,
    opened: Vec<Vec<u8>>,
    calls: u64,
    fails: Vec<u64>,
    faults: u64,
}

impl Model for MemDevices {
    ghost use Rattle.std.specs.Prelude.{map};
    ghost use Rattle.mr_devices.specs.MemStates.{MemState};

    ghost Value = { MemState };

    ghost view = { λ devices. record {
      files = map (λ file. (file.0, file.1.items)) devices.files.items;
      opened = map (λ file. file.items) devices.opened.items;
      calls = devices.calls;
      fails = devices.fails.items;
      faults = devices.faults;
    } };
}

impl MemDevices {
    /// Files by name, none of them open. The writes are numbered from 1, and `fails` lists those that fail.
    pub fn new(alloc: Global, files: Vec<(Text, Vec<u8>)>, fails: Vec<u64>) -> MemDevices
        ensures { result ≡ record {
          files = map (λ file. (file.0, file.1.items)) files.items;
          opened = [];
          calls = 0;
          fails = fails.items;
          faults = 0;
        } }
    {
        MemDevices {
            alloc,
            files,
            opened: Vec::new(alloc),
            calls: 0,
            fails,
            faults: 0,
        }
    }

    /// What the open file of this number holds.
    pub fn bytes(&self, number: usize) -> &[u8]
        requires { number < length self.now.opened }
        ensures { result.now ≡ get_or self.now.opened number [] }
    {
        self.opened[number].as_slice()
    }

    /// How many calls failed.
    pub fn faults(&self) -> u64
        ensures { result ≡ self.now.faults }
    {
        self.faults
    }
}

// A copy of the bytes of the first file of this name, or of none.
fn copy_of(alloc: Global, files: &[(Text, Vec<u8>)], name: &str) -> Result<Vec<u8>, NoMemory>
    ensures { IfOk result (λ copy. copy.items
        ≡ contents_of (map (λ file. (file.0, file.1.items)) files.now) (chars name.now)) }
{
    let mut copy = Vec::new(alloc);
    if let Some(bytes) = bytes_in(files, name) {
        copy.extend_from_slice(bytes)?;
    }
    Ok(copy)
}

// The bytes of the first file of this name.
fn bytes_in<'a>(files: &'a [(Text, Vec<u8>)], name: &str) -> Option<&'a [u8]>
    ensures { MatchOption result
        (file_of (map (λ file. (file.0, file.1.items)) files.now) (chars name.now) ≡ None)
        (λ bytes. file_of (map (λ file. (file.0, file.1.items)) files.now) (chars name.now)
        ≡ Some bytes.now) }
{
    for file in files {
        if file.0.is(name) {
            return Some(file.1.as_slice());
        }
    }
    None
}

// Zero bytes up to `end`, where the file ends before it. Where there is no memory the file stays.
fn grow(file: &mut Vec<u8>, end: usize) -> Result<(), NoMemory>
    ensures grown { OnOk result (file.new.items
        ≡ file.old.items ++ replicate (end - length file.old.items) 0) }
    ensures same { OnErr result (file.new.items ≡ file.old.items) }
{
    if file.len() < end {
        file.resize(end, 0)?;
    }
    Ok(())
}

// Writes the bytes at this place of a file that is long enough.
fn paste(file: &mut [u8], at: usize, bytes: &[u8])
    requires { at + length bytes.now ≤ length file.old }
    ensures { file.new
        ≡ take at file.old ++ (bytes.now ++ drop (at + length bytes.now) file.old) }
{
    file[at..at + bytes.len()].copy_from_slice(bytes);
}

// Writes the bytes at this place, behind zero bytes where the file ends before it. Where there is no memory the file
// stays.
fn write_into(file: &mut Vec<u8>, at: usize, bytes: &[u8]) -> Result<(), NoMemory>
    requires some { 0 < length bytes.now }
    requires end { at + length bytes.now < 2 ^ 63 }
    ensures written { OnOk result (IsWritten at bytes.now file.old.items file.new.items) }
    ensures same { OnErr result (file.new.items ≡ file.old.items) }
{
    grow(file, at + bytes.len())?;
    paste(file, at, bytes);
    Ok(())
}

// The same in the file of this number.
fn write_in(files: &mut [Vec<u8>], number: usize, at: usize, bytes: &[u8]) -> Result<(), NoMemory>
    requires there { number < length files.old }
    requires some { 0 < length bytes.now }
    requires end { at + length bytes.now < 2 ^ 63 }
    ensures written { OnOk result ((file : List ℕ)
        × IsWritten at bytes.now (get_or (map (λ file. file.items) files.old) number []) file
        × (map (λ file. file.items) files.new
        ≡ set (map (λ file. file.items) files.old) number file)) }
    ensures same { OnErr result
        (map (λ file. file.items) files.new ≡ map (λ file. file.items) files.old) }
{
    write_into(&mut files[number], at, bytes)
}

impl Devices for MemDevices {
    ghost told = { λ m. Some (shelf_of m) };

    ghost faults = { λ m. m.faults };

    fn open(&mut self, name: &str) -> Result<(), FilesError> {
        match copy_of(self.alloc, &self.files, name) {
            Ok(copy) => {
                self.opened.push(copy)?;
                Ok(())
            }
            Err(_) => Err(FilesError::Memory),
        }
    }

    fn write_at(&mut self, number: usize, at: u64, bytes: &[u8]) -> Result<(), Failed> {
        self.calls = one_more(self.calls);
        if self.fails.contains(&self.calls) {
            self.faults = one_more(self.faults);
            return Err(Failed);
        }
        match write_in(&mut self.opened, number, at as usize, bytes) {
            Ok(()) => Ok(()),
            Err(_) => {
                self.faults = one_more(self.faults);
                Err(Failed)
            }
        }
    }
}
