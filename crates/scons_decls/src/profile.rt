//! Which variables a script may set, read and refer to.
ghost use Rattle.std.specs.Prelude.{◌≡◌, ◌≢◌, Ok, Err, OnOk, IfErr};
ghost use Rattle.scons_decls.specs.Profile.{is_left_out, is_not_set, is_not_read, may_set, may_read};
ghost use Rattle.scons_decls.specs.References.{vars_allowed};

use crate::fault::NameFault;
use crate::references::refuse_value;
use env_vars::EnvValue;
use scons_base::Text;
use std::alloc::Global;

/// The variables and arguments on which SCons acts where a script sets them, and this program doesn't.
const NOT_SET: [&str; 30] = [
    "tools",
    "toolpath",
    "parse_flags",
    "chdir",
    "srcdir",
    "emitter",
    "BUILDERS",
    "RPATH",
    "SHLIBVERSION",
    "SHLIBVERSIONFLAGS",
    "SHLIBNOVERSIONSYMLINKS",
    "LDMODULEVERSION",
    "SONAME",
    "SOVERSION",
    "PROGEMITTER",
    "LIBEMITTER",
    "IMPLICIT_COMMAND_DEPENDENCIES",
    "SHELL_ENV_GENERATORS",
    "TEMPFILEDIR",
    "TEMPFILESUFFIX",
    "INSTALLSTR",
    "SUBST_DICT",
    "TARGET_ARCH",
    "TARGET_OS",
    "MSVC_VERSION",
    "PRINT_CMD_LINE_FUNC",
    "CHANGED_SOURCES",
    "CHANGED_TARGETS",
    "UNCHANGED_SOURCES",
    "UNCHANGED_TARGETS",
];

/// Those that SCons gives a value by itself: a script that reads them, or refers to them in a text, is refused too.
const LEFT_OUT: [&str; 76] = [
    "ENV",
    "SHELL",
    "SPAWN",
    "PSPAWN",
    "ESCAPE",
    "TEMPFILE",
    "TEMPFILEPREFIX",
    "TEMPFILEARGJOIN",
    "TEMPFILEARGESCFUNC",
    "MAXLINELENGTH",
    "SCANNERS",
    "CPPSUFFIXES",
    "CFILESUFFIX",
    "CXXFILESUFFIX",
    "OBJPREFIX",
    "PROGPREFIX",
    "LIBPREFIXES",
    "LIBSUFFIXES",
    "INSTALL",
    "INSTALLVERSIONEDLIB",
    "FILE_ENCODING",
    "LINESEPARATOR",
    "SUBSTFILEPREFIX",
    "SUBSTFILESUFFIX",
    "TEXTFILEPREFIX",
    "TEXTFILESUFFIX",
    "SMARTLINK",
    "RPATHPREFIX",
    "RPATHSUFFIX",
    "_RPATH",
    "__RPATH",
    "FRAMEWORKS",
    "FRAMEWORKPATH",
    "STATIC_AND_SHARED_OBJECTS_ARE_THE_SAME",
    "SHCC",
    "SHCXX",
    "SHCFLAGS",
    "SHCCFLAGS",
    "SHCXXFLAGS",
    "SHCCCOM",
    "SHCXXCOM",
    "SHOBJPREFIX",
    "SHOBJSUFFIX",
    "SHLINK",
    "SHLINKFLAGS",
    "SHLINKCOM",
    "SHLIBPREFIX",
    "SHLIBSUFFIX",
    "SHLIBEMITTER",
    "SHLIBNAME",
    "SHLIBSONAMEFLAGS",
    "LDMODULE",
    "LDMODULEFLAGS",
    "LDMODULECOM",
    "LDMODULEPREFIX",
    "LDMODULESUFFIX",
    "LDMODULEEMITTER",
    "LDMODULENAME",
    "LDMODULENOVERSIONSYMLINKS",
    "_SHLIBVERSION",
    "_SHLIBSUFFIX",
    "_SHLIBSONAME",
    "_SHLIBVERSIONFLAGS",
    "_LDMODULESUFFIX",
    "_LDMODULESONAME",
    "__SHLIBVERSIONFLAGS",
    "__LDMODULEVERSIONFLAGS",
    "__libversionflags",
    "__lib_either_version_flag",
    "_concat",
    "_stripixes",
    "_defines",
    "Dir",
    "Dirs",
    "File",
    "RDirs",
];

/// Those that SCons gives a value by itself, and that a script may give another one without effect.
const NOT_READ: [&str; 8] = [
    "PLATFORM",
    "TOOLS",
    "HOST_ARCH",
    "HOST_OS",
    "CCVERSION",
    "CXXVERSION",
    "CONFIGUREDIR",
    "CONFIGURELOG",
];

/// The lists of sources and targets by whether they changed.
const CHANGED: [&str; 4] = [
    "CHANGED_SOURCES",
    "CHANGED_TARGETS",
    "UNCHANGED_SOURCES",
    "UNCHANGED_TARGETS",
];

/// Whether a text that refers to the variable is refused. What links and what looks directories up have a meaning in texts.
#[tactic(auto, unfolding(crate::specs::Profile::is_left_out))]
pub(crate) fn is_left_out(name: &str) -> bool
    ensures { result ≡ is_left_out name.now }
{
    CHANGED.contains(&name) || (LEFT_OUT.contains(&name) && name != "SMARTLINK" && name != "RDirs")
}

#[tactic(auto, unfolding(crate::specs::Profile::is_not_set))]
fn is_not_set(name: &str) -> bool
    ensures { result ≡ is_not_set name.now }
{
    NOT_SET.contains(&name) || LEFT_OUT.contains(&name)
}

#[tactic(auto, unfolding(crate::specs::Profile::is_not_read))]
fn is_not_read(name: &str) -> bool
    ensures { result ≡ is_not_read name.now }
{
    is_left_out(name) || NOT_READ.contains(&name)
}

/// Refuses to set a variable on which SCons acts and this program doesn't.
pub fn refuse_variable(alloc: Global, name: &str) -> Result<(), NameFault>
    ensures ok { OnOk result (may_set name.now ≡ Ok tt) }
    ensures fault { IfErr result (λ e. e ≢ NameFault.Memory → may_set name.now ≡ Err e) }
{
    if is_not_set(name) {
        return Err(out_of_profile(alloc, name));
    }
    Ok(())
}

/// Refuses to read a variable that isn't there, and to which SCons gives a value.
pub fn refuse_reading(alloc: Global, name: &str) -> Result<(), NameFault>
    ensures ok { OnOk result (may_read name.now ≡ Ok tt) }
    ensures fault { IfErr result (λ e. e ≢ NameFault.Memory → may_read name.now ≡ Err e) }
{
    if is_not_read(name) {
        return Err(out_of_profile(alloc, name));
    }
    Ok(())
}

/// Refuses variables with their values, in their order.
pub fn refuse_variables(alloc: Global, values: &[(Text, EnvValue)]) -> Result<(), NameFault>
    ensures ok { OnOk result (vars_allowed values.now ≡ Ok tt) }
    ensures fault { IfErr result (λ e. e ≢ NameFault.Memory → vars_allowed values.now ≡ Err e) }
{
    for (name, value) in values {
        refuse_variable(alloc, name.as_str())?;
        refuse_value(alloc, value)?;
    }
    Ok(())
}

pub(crate) fn out_of_profile(alloc: Global, name: &str) -> NameFault
    ensures { result ≢ NameFault.Memory → result ≡ NameFault.OutOfProfile name.now }
{
    match Text::of(alloc, name) {
        Ok(name) => NameFault::OutOfProfile(name),
        Err(_) => NameFault::Memory,
    }
}
