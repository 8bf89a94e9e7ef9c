//! Which variables hold word lists, and which hold lists.
ghost use Rattle.std.specs.Prelude.{◌≡◌, codes};
ghost use Rattle.env_vars.specs.Names.{is_word_variable, is_list_variable, is_late_variable, takes_dict};

/// The variables that hold word lists.
const WORD_VARIABLES: [&str; 7] = [
    "CCFLAGS",
    "CFLAGS",
    "CXXFLAGS",
    "CPPFLAGS",
    "LINKFLAGS",
    "ARFLAGS",
    "RANLIBFLAGS",
];

/// The variables that hold lists.
pub(crate) const LIST_VARIABLES: [&str; 4] = ["CPPPATH", "CPPDEFINES", "LIBS", "LIBPATH"];

/// The variables that a new environment of SCons doesn't have yet.
const LATE_VARIABLES: [&str; 5] = ["CPPFLAGS", "CPPPATH", "CPPDEFINES", "LIBS", "LIBPATH"];

pub(crate) fn is_word_variable(name: &str) -> bool
    ensures { result ≡ is_word_variable name.now }
{
    WORD_VARIABLES.contains(&name)
}

pub(crate) fn is_list_variable(name: &str) -> bool
    ensures { result ≡ is_list_variable name.now }
{
    LIST_VARIABLES.contains(&name)
}

pub(crate) fn is_late_variable(name: &str) -> bool
    ensures { result ≡ is_late_variable name.now }
{
    LATE_VARIABLES.contains(&name)
}

/// Whether the variable takes a dict as its pairs.
pub(crate) fn takes_dict(name: &str) -> bool
    ensures { result ≡ takes_dict name.now }
{
    name == "CPPDEFINES"
}
