//! The variables that a new environment has.
ghost use Rattle.std.specs.Prelude.{◌≡◌, ◌∷◌, [], map, filter, IfOk, OnOk};
ghost use Rattle.env_text.specs.White.{is_word};
ghost use Rattle.env_vars.specs.Vars.{put_all};
ghost use Rattle.env_vars.specs.Initial.{initial_vars};

use crate::names::LIST_VARIABLES;
use crate::value::EnvValue;
use crate::vars::Vars;
use scons_base::{Listing, Memory, Text, Texts};
use std::alloc::Global;

const TEXTS: [(&str, &str); 23] = [
    ("CC", "cc"),
    ("CXX", "c++"),
    (
        "CCCOM",
        "$CC -o $TARGET -c $CFLAGS $CCFLAGS $_CCCOMCOM $SOURCES",
    ),
    (
        "CXXCOM",
        "$CXX -o $TARGET -c $CXXFLAGS $CCFLAGS $_CCCOMCOM $SOURCES",
    ),
    ("_CCCOMCOM", "$CPPFLAGS $_CPPDEFFLAGS $_CPPINCFLAGS"),
    (
        "_CPPDEFFLAGS",
        "${_concat(CPPDEFPREFIX, CPPDEFINES, CPPDEFSUFFIX, __env__)}",
    ),
    (
        "_CPPINCFLAGS",
        "$( ${_concat(INCPREFIX, CPPPATH, INCSUFFIX, __env__, RDirs)} $)",
    ),
    (
        "_LIBDIRFLAGS",
        "$( ${_concat(LIBDIRPREFIX, LIBPATH, LIBDIRSUFFIX, __env__, RDirs)} $)",
    ),
    (
        "_LIBFLAGS",
        "${_concat(LIBLINKPREFIX, LIBS, LIBLINKSUFFIX, __env__)}",
    ),
    ("LINK", "$SMARTLINK"),
    (
        "LINKCOM",
        "$LINK -o $TARGET $LINKFLAGS $SOURCES $_LIBDIRFLAGS $_LIBFLAGS",
    ),
    ("ARCOM", "$AR $ARFLAGS $TARGET $SOURCES"),
    ("AR", "ar"),
    ("RANLIB", "ranlib"),
    ("RANLIBCOM", "$RANLIB $RANLIBFLAGS $TARGET"),
    ("INCPREFIX", "-I"),
    ("CPPDEFPREFIX", "-D"),
    ("LIBLINKPREFIX", "-l"),
    ("LIBDIRPREFIX", "-L"),
    ("OBJSUFFIX", ".o"),
    ("PROGSUFFIX", ""),
    ("LIBPREFIX", "lib"),
    ("LIBSUFFIX", ".a"),
];

/// Word lists, with the one word that they have or none.
const WORDS: [(&str, &str); 7] = [
    ("CCFLAGS", ""),
    ("CFLAGS", ""),
    ("CXXFLAGS", ""),
    ("CPPFLAGS", ""),
    ("LINKFLAGS", ""),
    ("ARFLAGS", "rc"),
    ("RANLIBFLAGS", ""),
];

pub(crate) fn initial_vars(alloc: Global) -> Result<Vars, Memory>
    ensures { IfOk result (λ v. v ≡ initial_vars) }
{
    let mut vars = Vars::new(alloc);
    put_texts(alloc, &mut vars, &TEXTS)?;
    put_words(alloc, &mut vars, &WORDS)?;
    put_lists(alloc, &mut vars, &LIST_VARIABLES)?;
    Ok(vars)
}

fn put_texts(alloc: Global, vars: &mut Vars, rows: &[(&str, &str)]) -> Result<(), Memory>
    ensures { OnOk result (vars.new
        ≡ put_all vars.old (map (λ row. (row.0.now, EnvValue.Text row.1.now)) rows.now)) }
{
    for (name, text) in rows {
        let value = EnvValue::Text(Text::of(alloc, text)?);
        vars.put(String::from_str(alloc, name)?, value)?;
    }
    Ok(())
}

fn put_words(alloc: Global, vars: &mut Vars, rows: &[(&str, &str)]) -> Result<(), Memory>
    ensures { OnOk result (vars.new ≡ put_all vars.old
        (map (λ row. (row.0.now, EnvValue.Words (filter is_word (row.1.now ∷ [])))) rows.now)) }
{
    for (name, word) in rows {
        let value = EnvValue::Words(one_word(alloc, word)?);
        vars.put(String::from_str(alloc, name)?, value)?;
    }
    Ok(())
}

fn one_word(alloc: Global, word: &str) -> Result<Texts, Memory>
    ensures { IfOk result (λ w. w ≡ filter is_word (word.now ∷ [])) }
{
    let mut words = Texts::new(Vec::new(alloc));
    if !word.is_empty() {
        words.push(Text::of(alloc, word)?)?;
    }
    Ok(words)
}

fn put_lists(alloc: Global, vars: &mut Vars, names: &[&str]) -> Result<(), Memory>
    ensures { OnOk result (vars.new
        ≡ put_all vars.old (map (λ name. (name.now, EnvValue.List [])) names.now)) }
{
    for name in names {
        let value = EnvValue::List(Listing::new(Vec::new(alloc)));
        vars.put(String::from_str(alloc, name)?, value)?;
    }
    Ok(())
}
