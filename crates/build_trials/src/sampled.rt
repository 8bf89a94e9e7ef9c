//! A build of one copy alone, without scripts.
use build_samples::{Sample, build_copy};
use scons_base::{Blob, PathText};
use std::alloc::Global;
use trial_text::Told;

/// Copies `s`, which holds this text, to `t`, and tells what the build printed and answered, and which files it left.
pub(crate) fn put_copy(alloc: Global, told: &mut Told, text: &str) {
    match build_copy(alloc, text.as_bytes()) {
        Some(sample) => put_sample(told, &sample),
        None => told.refuse(),
    }
}

fn put_sample(told: &mut Told, sample: &Sample) {
    told.put_bytes(sample.out.text());
    told.show(sample.end.faults.len());
    told.put(" faults, ");
    told.show(sample.end.started.len());
    told.put(" started\n");
    match sample.world.files() {
        Ok(files) => put_contents(told, files.as_slice()),
        Err(_) => told.refuse(),
    }
}

fn put_contents(told: &mut Told, files: &[(PathText, Blob)]) {
    for (path, bytes) in files {
        told.put_all(&[path.as_str(), ": "]);
        told.put_bytes(bytes.as_slice());
        told.put("\n");
    }
}
