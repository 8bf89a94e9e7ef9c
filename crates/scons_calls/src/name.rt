//! The names of SCons that scripts call, grouped by what a call asks, and how they are written.
ghost use Rattle.std.specs.Prelude.{◌≡◌, length, map, position};
ghost use Rattle.std.specs.Option.{option_map};
ghost use Rattle.std.specs.Str.{bytes_eq};
ghost use Rattle.scons_calls.specs.Names.{is_alone, is_method, names_table, stands_in, name_in, text_in, name_alone, name_of_method, name_at, text_at};

/// A name of SCons that scripts call. Each group is matched whole where its calls are made requests, so none of a group can
/// be forgotten there.
#[derive(Clone, Copy)]
pub enum Name {
    Builds(Builds),
    Environs(Environs),
    Says(Says),
    Tells(Tells),
    Shares(Shares),
}

/// Builders with targets and sources.
#[derive(Clone, Copy)]
pub enum Builds {
    Object,
    Program,
    StaticLibrary,
    Library,
}

/// What is called with variables, or acts on those of an environment.
#[derive(Clone, Copy)]
pub enum Environs {
    Environment,
    DefaultEnvironment,
    Clone,
    Append,
    Prepend,
    AppendUnique,
    Replace,
    SetDefault,
    Subst,
    Command,
    Textfile,
    Substfile,
    Builder,
    Decider,
    Help,
}

/// What declares or says something of nodes.
#[derive(Clone, Copy)]
pub enum Says {
    Install,
    InstallAs,
    VariantDir,
    Depends,
    Requires,
    Ignore,
    AlwaysBuild,
    Alias,
    Default,
    File,
    Dir,
}

/// What the host tells by itself.
#[derive(Clone, Copy)]
pub enum Tells {
    Get,
    Glob,
    Split,
    Flatten,
    EnsureSConsVersion,
    EnsurePythonVersion,
}

/// What scripts share with one another.
#[derive(Clone, Copy)]
pub enum Shares {
    SConscript,
    Export,
    Import,
    Return,
}

/// Where a name stands: among the names of scripts, among the methods of environments, or in both places.
#[derive(Clone, Copy)]
pub enum Stands {
    Alone,
    AsMethod,
    AsBoth,
}

/// The names as they are written, and where each stands.
pub const NAMES: [(&str, Name, Stands); 40] = [
    (
        "Environment",
        Name::Environs(Environs::Environment),
        Stands::AsBoth,
    ),
    (
        "DefaultEnvironment",
        Name::Environs(Environs::DefaultEnvironment),
        Stands::AsBoth,
    ),
    ("Clone", Name::Environs(Environs::Clone), Stands::AsMethod),
    ("Append", Name::Environs(Environs::Append), Stands::AsMethod),
    (
        "Prepend",
        Name::Environs(Environs::Prepend),
        Stands::AsMethod,
    ),
    (
        "AppendUnique",
        Name::Environs(Environs::AppendUnique),
        Stands::AsMethod,
    ),
    (
        "Replace",
        Name::Environs(Environs::Replace),
        Stands::AsMethod,
    ),
    (
        "SetDefault",
        Name::Environs(Environs::SetDefault),
        Stands::AsMethod,
    ),
    ("get", Name::Tells(Tells::Get), Stands::AsMethod),
    ("subst", Name::Environs(Environs::Subst), Stands::AsMethod),
    ("Object", Name::Builds(Builds::Object), Stands::AsBoth),
    ("Program", Name::Builds(Builds::Program), Stands::AsBoth),
    (
        "StaticLibrary",
        Name::Builds(Builds::StaticLibrary),
        Stands::AsBoth,
    ),
    ("Library", Name::Builds(Builds::Library), Stands::AsBoth),
    ("Command", Name::Environs(Environs::Command), Stands::AsBoth),
    (
        "Textfile",
        Name::Environs(Environs::Textfile),
        Stands::AsBoth,
    ),
    (
        "Substfile",
        Name::Environs(Environs::Substfile),
        Stands::AsBoth,
    ),
    ("Builder", Name::Environs(Environs::Builder), Stands::AsBoth),
    ("Install", Name::Says(Says::Install), Stands::AsBoth),
    ("InstallAs", Name::Says(Says::InstallAs), Stands::AsBoth),
    (
        "SConscript",
        Name::Shares(Shares::SConscript),
        Stands::AsBoth,
    ),
    ("Export", Name::Shares(Shares::Export), Stands::Alone),
    ("Import", Name::Shares(Shares::Import), Stands::Alone),
    ("Return", Name::Shares(Shares::Return), Stands::Alone),
    ("VariantDir", Name::Says(Says::VariantDir), Stands::AsBoth),
    ("Depends", Name::Says(Says::Depends), Stands::AsBoth),
    ("Requires", Name::Says(Says::Requires), Stands::AsBoth),
    ("Ignore", Name::Says(Says::Ignore), Stands::AsBoth),
    ("AlwaysBuild", Name::Says(Says::AlwaysBuild), Stands::AsBoth),
    ("Alias", Name::Says(Says::Alias), Stands::AsBoth),
    ("Default", Name::Says(Says::Default), Stands::AsBoth),
    ("Help", Name::Environs(Environs::Help), Stands::AsBoth),
    ("Decider", Name::Environs(Environs::Decider), Stands::AsBoth),
    ("Glob", Name::Tells(Tells::Glob), Stands::AsBoth),
    ("File", Name::Says(Says::File), Stands::AsBoth),
    ("Dir", Name::Says(Says::Dir), Stands::AsBoth),
    ("Split", Name::Tells(Tells::Split), Stands::AsBoth),
    ("Flatten", Name::Tells(Tells::Flatten), Stands::AsBoth),
    (
        "EnsureSConsVersion",
        Name::Tells(Tells::EnsureSConsVersion),
        Stands::AsBoth,
    ),
    (
        "EnsurePythonVersion",
        Name::Tells(Tells::EnsurePythonVersion),
        Stands::AsBoth,
    ),
];

/// A row of that table.
type Row = (&'static str, Name, Stands);

/// The number of a name: its place among `NAMES`. A number that has no place there stands for the first of them.
#[derive(Clone, Copy, Debug, PartialEq, Eq, Hash)]
pub struct NameId(pub usize);

impl NameId {
    /// The method of environments that is written so.
    #[tactic(auto, using(crate::proofs::Rows::rows))]
    pub fn of_environments(text: &str) -> Option<NameId>
        ensures { option_map (λ id. id.0) result ≡ name_of_method text.now }
    {
        let place = place_in(&NAMES, text)?;
        if is_method(stands_in(&NAMES, place)) {
            Some(NameId(place))
        } else {
            None
        }
    }

    /// The name of scripts that is written so.
    #[tactic(auto, using(crate::proofs::Rows::rows))]
    pub fn of_scripts(text: &str) -> Option<NameId>
        ensures { option_map (λ id. id.0) result ≡ name_alone text.now }
    {
        let place = place_in(&NAMES, text)?;
        if is_alone(stands_in(&NAMES, place)) {
            Some(NameId(place))
        } else {
            None
        }
    }

    pub fn name(self) -> Name
        ensures { result ≡ name_at self.0 }
    {
        name_in(&NAMES, self.0)
    }

    /// How it is written.
    pub fn text(self) -> &'static str
        ensures { result.now ≡ text_at self.0 }
    {
        text_in(&NAMES, self.0)
    }

    /// How many names there are.
    pub fn count() -> usize
        ensures { result ≡ length names_table }
    {
        NAMES.len()
    }
}

/// Where the row stands that is written so.
fn place_in(rows: &[Row], text: &str) -> Option<usize>
    ensures { result ≡ position (λ r. bytes_eq r.0.now text.now) rows.now }
{
    rows.iter().position(|row| row.0 == text)
}

fn stands_in(rows: &[Row], place: usize) -> Stands
    ensures { result ≡ stands_in (map (λ r. (r.0.now, r.1, r.2)) rows.now) place }
{
    match rows.get(place) {
        Some(row) => row.2,
        None => Stands::AsBoth,
    }
}

fn name_in(rows: &[Row], place: usize) -> Name
    ensures { result ≡ name_in (map (λ r. (r.0.now, r.1, r.2)) rows.now) place }
{
    match rows.get(place) {
        Some(row) => row.1,
        None => Name::Environs(Environs::Environment),
    }
}

fn text_in(rows: &[Row], place: usize) -> &'static str
    ensures { result.now ≡ text_in (map (λ r. (r.0.now, r.1, r.2)) rows.now) place }
{
    match rows.get(place) {
        Some(row) => row.0,
        None => "Environment",
    }
}

/// Whether it is a method of environments.
fn is_method(stands: Stands) -> bool
    ensures { result ≡ is_method stands }
{
    matches!(stands, Stands::AsMethod | Stands::AsBoth)
}

/// Whether it stands among the names of scripts.
fn is_alone(stands: Stands) -> bool
    ensures { result ≡ is_alone stands }
{
    matches!(stands, Stands::Alone | Stands::AsBoth)
}
