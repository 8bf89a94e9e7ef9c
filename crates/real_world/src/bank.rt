//! The signature banks, each in a file that is opened where it is first used and made where it is first written.
use crate::errors::is_forbidden;
use crate::opening::{open, open_with};
use std::fs::{File, Metadata, OpenOptions};
use std::io::ErrorKind;
use std::os::unix::fs::{FileExt, MetadataExt};
use std::rt::Files;
use std::time::Clock;
use std::{fs, io};
use world_api::Bank;

/// The name of a bank's file.
pub fn name_of(bank: Bank) -> &'static str {
    match bank {
        Bank::A => ".sconsign.sig",
        Bank::B => ".sconsign.sig.b",
    }
}

/// Both banks.
#[derive(Drop)]
pub struct BankFiles {
    a: BankFile,
    b: BankFile,
}

impl BankFiles {
    pub fn new() -> BankFiles {
        BankFiles {
            a: BankFile::new(name_of(Bank::A)),
            b: BankFile::new(name_of(Bank::B)),
        }
    }

    pub fn size<R: Files<File = File> + Clock>(&mut self, rt: &R, bank: Bank) -> io::Result<u64> {
        match bank {
            Bank::A => self.a.size(rt),
            Bank::B => self.b.size(rt),
        }
    }

    pub fn read_at<R: Files<File = File> + Clock>(
        &mut self,
        rt: &R,
        bank: Bank,
        place: u64,
        into: &mut [u8],
    ) -> io::Result<()> {
        match bank {
            Bank::A => self.a.read_at(rt, place, into),
            Bank::B => self.b.read_at(rt, place, into),
        }
    }

    pub fn write_at<R: Files<File = File> + Clock>(
        &mut self,
        rt: &R,
        bank: Bank,
        place: u64,
        bytes: &[u8],
    ) -> io::Result<()> {
        match bank {
            Bank::A => self.a.write_at(rt, place, bytes),
            Bank::B => self.b.write_at(rt, place, bytes),
        }
    }

    pub fn sync<R: Files<File = File> + Clock>(&mut self, rt: &R, bank: Bank) -> io::Result<()> {
        match bank {
            Bank::A => self.a.sync(rt),
            Bank::B => self.b.sync(rt),
        }
    }
}

#[derive(Drop)]
struct BankFile {
    name: &'static str,
    file: Option<File>,
    /// Why the file is open for reading alone.
    refusal: Option<io::Error>,
}

impl BankFile {
    fn new(name: &'static str) -> BankFile {
        BankFile {
            name,
            file: None,
            refusal: None,
        }
    }

    /// A bank without a file has no bytes.
    fn size<R: Files<File = File> + Clock>(&mut self, rt: &R) -> io::Result<u64> {
        self.open(rt)?;
        match &self.file {
            Some(file) => Ok(file.metadata()?.len()),
            None => Ok(0),
        }
    }

    fn read_at<R: Files<File = File> + Clock>(
        &mut self,
        rt: &R,
        place: u64,
        into: &mut [u8],
    ) -> io::Result<()> {
        self.open(rt)?;
        match &self.file {
            Some(file) => file.read_exact_at(into, place),
            None if into.is_empty() => Ok(()),
            None => Err(io::Error::from(ErrorKind::UnexpectedEof)),
        }
    }

    fn write_at<R: Files<File = File> + Clock>(
        &mut self,
        rt: &R,
        place: u64,
        bytes: &[u8],
    ) -> io::Result<()> {
        self.open(rt)?;
        if self.file.is_none() {
            self.make(rt)?;
        }
        if let Some(refusal) = self.refusal {
            return Err(refusal);
        }
        match &self.file {
            Some(file) => file.write_all_at(bytes, place),
            None => Err(io::Error::from(ErrorKind::NotFound)),
        }
    }

    fn sync<R: Files<File = File> + Clock>(&mut self, rt: &R) -> io::Result<()> {
        self.open(rt)?;
        match &self.file {
            Some(file) => file.sync_data(),
            None => Ok(()),
        }
    }

    fn open<R: Files<File = File> + Clock>(&mut self, rt: &R) -> io::Result<()> {
        if self.file.is_none() {
            let (file, refusal) = opened(rt, self.name)?;
            self.file = file;
            self.refusal = refusal;
        }
        Ok(())
    }

    /// Makes the file, where not even a link stands, and syncs the directory that holds its name.
    fn make<R: Files<File = File> + Clock>(&mut self, rt: &R) -> io::Result<()> {
        let mut how = OpenOptions::new();
        how.read(true).write(true).create_new(true);
        let file = open_with(rt, &how, self.name)?;
        open(rt, ".")?.sync_all()?;
        self.file = Some(file);
        Ok(())
    }
}

/// A bank's file, if there is one, and why it isn't open for writing, if so.
type Opened = (Option<File>, Option<io::Error>);

/// The file of a bank, if there is one. It is a file itself and no link to one, so that nothing else is written to.
fn opened<R: Files<File = File> + Clock>(rt: &R, name: &str) -> io::Result<Opened> {
    match fs::symlink_metadata(rt, name) {
        Ok(metadata) if metadata.is_file() => {}
        Ok(_) => return Err(no_file()),
        Err(error) if error.kind() == ErrorKind::NotFound => return Ok((None, None)),
        Err(error) => return Err(error),
    }
    let (file, refusal) = open_bank(rt, name)?;
    let standing = fs::symlink_metadata(rt, name)?;
    match file.metadata() {
        Ok(metadata) if is_same(&metadata, &standing) => Ok((Some(file), refusal)),
        Ok(_) => Err(no_file()),
        Err(error) => Err(error),
    }
}

/// Opens a bank, for reading alone where it may not be written.
fn open_bank<R: Files<File = File> + Clock>(
    rt: &R,
    name: &str,
) -> io::Result<(File, Option<io::Error>)> {
    let mut how = OpenOptions::new();
    how.read(true).write(true);
    match open_with(rt, &how, name) {
        Ok(file) => Ok((file, None)),
        Err(error) if is_forbidden(error.kind()) => Ok((open(rt, name)?, Some(error))),
        Err(error) => Err(error),
    }
}

/// Whether both are of one file.
fn is_same(one: &Metadata, other: &Metadata) -> bool {
    one.dev() == other.dev() && one.ino() == other.ino()
}

fn no_file() -> io::Error {
    io::Error::new(ErrorKind::InvalidInput, "it is a link, or no file")
}
