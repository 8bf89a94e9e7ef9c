//! What lines on variant directories ask for.
use crate::written::path_of;
use scons_base::PathText;
use std::alloc::Global;
use trial_text::Told;
use variant_dirs::{VariantFault, Variants};

/// A variant directory, its source and `copied` or `not`; how many there are then.
pub(crate) fn put_added(alloc: Global, told: &mut Told, variants: &mut Variants, rest: &str) {
    let (dir, fields) = rest.split_once('|').unwrap_or((rest, ""));
    let (source, flag) = fields.split_once('|').unwrap_or((fields, ""));
    told.put_all(&[dir, " of ", source, " ", flag, ": "]);
    let Some(dir) = path_of(alloc, dir) else {
        return told.refuse();
    };
    let Some(source) = path_of(alloc, source) else {
        return told.refuse();
    };
    match variants.add(&dir, &source, flag == "copied") {
        Ok(()) => told.show(variants.as_slice().len()),
        Err(fault) => put_fault(told, fault),
    }
}

/// The source of a path, where the top directory is `/top`.
pub(crate) fn put_source(alloc: Global, told: &mut Told, variants: &Variants, field: &str) {
    told.put_all(&["source of ", field, ": "]);
    let Some(top) = path_of(alloc, "/top") else {
        return told.refuse();
    };
    let Some(place) = path_of(alloc, field) else {
        return told.refuse();
    };
    match variants.source_of(&top, &place) {
        Ok(Some(source)) => told.put(source.as_str()),
        Ok(None) => told.put("none"),
        Err(_) => told.refuse(),
    }
}

/// Where a name of a directory is looked for.
pub(crate) fn put_searched(alloc: Global, told: &mut Told, variants: &Variants, rest: &str) {
    let (dir, name) = rest.split_once('|').unwrap_or((rest, ""));
    told.put_all(&[name, " from ", dir, ":"]);
    let Some(top) = path_of(alloc, "/top") else {
        return told.refuse();
    };
    let Some(dir) = path_of(alloc, dir) else {
        return told.refuse();
    };
    match variants.search(&top, &dir, name) {
        Ok(found) => put_paths(told, found.as_slice()),
        Err(fault) => {
            told.put(" ");
            put_fault(told, fault);
        }
    }
}

fn put_paths(told: &mut Told, paths: &[PathText]) {
    for path in paths {
        told.put_all(&[" ", path.as_str()]);
    }
}

fn put_fault(told: &mut Told, fault: VariantFault) {
    match fault {
        VariantFault::Nested => told.put("!Nested"),
        VariantFault::Twice => told.put("!Twice"),
        VariantFault::BadName(fault) => {
            told.put("!BadName, ");
            told.show(fault);
        }
        VariantFault::Memory => told.refuse(),
    }
}
