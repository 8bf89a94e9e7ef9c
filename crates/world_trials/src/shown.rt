//! How rows show what they give.
use scons_base::{Memory, Paths};
use trial_text::Told;
use world_api::{AskRefusal, Content, Ended, Fault, Job, Kind, Outcome, ReadRefusal};
use world_mem::{EditRefusal, Files};

/// The text itself where it is some letters and digits alone and begins with no `x`, else hexadecimal behind `x`.
pub(crate) fn put_bytes(told: &mut Told, bytes: &[u8]) {
    if is_plain(bytes) && !bytes.starts_with(b"x") {
        told.put_bytes(bytes);
    } else {
        told.put("x");
        put_hex(told, bytes);
    }
}

fn is_plain(bytes: &[u8]) -> bool {
    for byte in bytes {
        if !byte.is_ascii_alphanumeric() {
            return false;
        }
    }
    !bytes.is_empty()
}

/// Bytes as hexadecimal digits.
pub(crate) fn put_hex(told: &mut Told, bytes: &[u8]) {
    for byte in bytes {
        told.show(format_args!("{byte:02x}"));
    }
}

/// Whether a call was done.
pub(crate) fn put_done(told: &mut Told, is_done: bool) {
    told.put(if is_done { "ok" } else { "fault" });
}

pub(crate) fn put_asked(told: &mut Told, answer: Result<(), AskRefusal>) {
    match answer {
        Ok(()) => told.put("ok"),
        Err(refusal) => put_refusal(told, refusal),
    }
}

pub(crate) fn put_refusal(told: &mut Told, refusal: AskRefusal) {
    match refusal {
        AskRefusal::Fault => told.put("fault"),
        AskRefusal::Memory => told.refuse(),
    }
}

pub(crate) fn put_size(told: &mut Told, size: Result<u64, Fault>) {
    match size {
        Ok(size) => told.show(size),
        Err(_) => told.put("fault"),
    }
}

pub(crate) fn put_kind(told: &mut Told, kind: Result<Kind, Fault>) {
    told.put(match kind {
        Ok(Kind::Absent) => "nothing",
        Ok(Kind::File) => "a file",
        Ok(Kind::Dir) => "a directory",
        Err(_) => "fault",
    });
}

pub(crate) fn put_content(told: &mut Told, content: Result<Content, ReadRefusal>) {
    match content {
        Ok(Some(bytes)) => put_bytes(told, bytes.as_slice()),
        Ok(None) => told.put("no file"),
        Err(ReadRefusal::Fault) => told.put("fault"),
        Err(ReadRefusal::TooLarge(size)) => {
            told.put("too large: ");
            told.show(size);
        }
        Err(ReadRefusal::Memory) => told.refuse(),
    }
}

pub(crate) fn put_list(told: &mut Told, paths: Result<Paths, AskRefusal>) {
    match paths {
        Ok(paths) => {
            told.show(paths.as_slice().len());
            told.put(" files");
            for path in paths.as_slice() {
                told.put_all(&[" ", path.as_str()]);
            }
        }
        Err(refusal) => put_refusal(told, refusal),
    }
}

pub(crate) fn put_stamp(told: &mut Told, stamp: Result<Option<u64>, Fault>) {
    match stamp {
        Ok(Some(stamp)) => told.show(stamp),
        Ok(None) => told.put("no file"),
        Err(_) => told.put("fault"),
    }
}

/// How a job ended.
pub(crate) fn put_ended(told: &mut Told, ended: Ended) {
    told.show(ended.id);
    match ended.outcome {
        Outcome::Done => told.put(" done"),
        Outcome::Failed(status) => {
            told.put(" failed with ");
            told.show(status);
        }
        Outcome::Broken => told.put(" broken"),
        Outcome::NoMemory => told.put(" short of memory"),
    }
}

pub(crate) fn put_edited(told: &mut Told, answer: Result<(), EditRefusal>) {
    match answer {
        Ok(()) => told.put("ok"),
        Err(EditRefusal::Place) => told.put("no place for a file"),
        Err(EditRefusal::Memory) => told.refuse(),
    }
}

/// All files, and what they hold.
pub(crate) fn put_files(told: &mut Told, files: Result<Files, Memory>) {
    match files {
        Ok(files) => {
            told.show(files.len());
            told.put(" files");
            for (path, bytes) in files.as_slice() {
                told.put_all(&[" ", path.as_str(), "="]);
                put_bytes(told, bytes.as_slice());
            }
        }
        Err(_) => told.refuse(),
    }
}

pub(crate) fn put_jobs(told: &mut Told, jobs: &[Job]) {
    told.show(jobs.len());
    told.put(" jobs");
    for job in jobs {
        told.put(" ");
        told.show(job.id);
    }
}
