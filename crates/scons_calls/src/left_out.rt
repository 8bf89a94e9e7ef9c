//! The names of SCons that are left out: each is refused by its name, wherever a script has it.
ghost use Rattle.std.specs.Prelude.{◌≡◌};
ghost use Rattle.std.specs.List.{list_any};
ghost use Rattle.std.specs.Str.{bytes_eq};
ghost use Rattle.scons_calls.specs.LeftOut.{is_name_left_out, is_attribute_left_out, attributes_left_out};

/// What SCons has among the names of scripts, in the order of its manual; behind it what the manual doesn't tell of.
const OF_SCRIPTS: [&str; 131] = [
    // Builders.
    "CFile",
    "CXXFile",
    "DVI",
    "InstallVersionedLib",
    "Jar",
    "Java",
    "JavaH",
    "LoadableModule",
    "M4",
    "Moc",
    "MOFiles",
    "MSVSProject",
    "MSVSSolution",
    "Package",
    "PCH",
    "PDF",
    "POInit",
    "PostScript",
    "POTUpdate",
    "POUpdate",
    "ProgramAllAtOnce",
    "RES",
    "RMIC",
    "RPCGenClient",
    "RPCGenHeader",
    "RPCGenService",
    "RPCGenXDR",
    "SharedLibrary",
    "SharedObject",
    "StaticObject",
    "Tar",
    "Translate",
    "TypeLibrary",
    "Uic",
    "Zip",
    // Functions.
    "Action",
    "AddMethod",
    "AddOption",
    "AddPostAction",
    "AddPreAction",
    "AllowSubstExceptions",
    "AppendENVPath",
    "BuildDir",
    "CacheDir",
    "Clean",
    "Configure",
    "Detect",
    "Dictionary",
    "Dump",
    "Entry",
    "Execute",
    "Exit",
    "FindFile",
    "FindInstalledFiles",
    "FindIxes",
    "FindPathDirs",
    "FindSourceFiles",
    "GetBuildFailures",
    "GetBuildPath",
    "GetLaunchDir",
    "GetOption",
    "Literal",
    "Local",
    "MergeFlags",
    "NoCache",
    "NoClean",
    "Override",
    "ParseConfig",
    "ParseDepends",
    "ParseFlags",
    "Platform",
    "Precious",
    "PrependENVPath",
    "PrependUnique",
    "Progress",
    "Pseudo",
    "PyPackageDir",
    "RemoveMethod",
    "ReplaceIxes",
    "Repository",
    "SConscriptChdir",
    "SConsignFile",
    "Scanner",
    "SetOption",
    "SideEffect",
    "SourceCode",
    "SourceSignatures",
    "Stop",
    "Tag",
    "TargetSignatures",
    "Tool",
    "Value",
    "Virtualenv",
    "WhereIs",
    // What scripts read.
    "ARGLIST",
    "BUILD_TARGETS",
    "COMMAND_LINE_TARGETS",
    "DEFAULT_TARGETS",
    // Variables of the command line.
    "Variables",
    "BoolVariable",
    "EnumVariable",
    "ListVariable",
    "PackageVariable",
    "PathVariable",
    // Actions.
    "Chmod",
    "Copy",
    "Delete",
    "Mkdir",
    "Move",
    "Touch",
    // Scanners.
    "CScan",
    "CScanner",
    "DirScanner",
    "DScanner",
    "ProgramScanner",
    "SourceFileScanner",
    // What stands there beside.
    "BuildTask",
    "CleanTask",
    "GlobalDefaultBuilders",
    "GlobalDefaultEnvironmentFunctions",
    "HelpFunction",
    "PrintHelp",
    "QuestionTask",
    "StringIO",
    "TargetList",
    "call_stack",
    "help_text",
    "main",
    "sconscript_reading",
    "set_missing_sconscript_error",
    "start_time",
];

/// What SCons has among the attributes of environments beside those names.
const OF_ENVIRONMENTS: [&str; 35] = [
    "CopyAs",
    "CopyTo",
    "Export",
    "Import",
    "JarFile",
    "JavaClassDir",
    "JavaClassFile",
    "JavaFile",
    "added_methods",
    "arg2nodes",
    "backtick",
    "cache_timestamp_newer",
    "decide_source",
    "decide_target",
    "fs",
    "get_CacheDir",
    "get_builder",
    "get_factory",
    "get_scanner",
    "get_src_sig_type",
    "get_tgt_sig_type",
    "gvars",
    "has_key",
    "items",
    "keys",
    "lookup_list",
    "lvars",
    "scanner_map_delete",
    "setdefault",
    "subst_kw",
    "subst_list",
    "subst_path",
    "subst_target_source",
    "validate_CacheDir_class",
    "values",
];

/// Whether SCons has a name of scripts that is left out here.
pub fn is_left_out(text: &str) -> bool
    ensures { result ≡ is_name_left_out text.now }
{
    is_among(&OF_SCRIPTS, text)
}

/// Whether environments of SCons have an attribute that is left out here.
pub fn is_left_out_of_environments(text: &str) -> bool
    ensures { result ≡ is_attribute_left_out text.now }
{
    is_left_out(text) || is_attribute(text)
}

fn is_attribute(text: &str) -> bool
    ensures { result ≡ list_any (λ n. bytes_eq n text.now) attributes_left_out }
{
    is_among(&OF_ENVIRONMENTS, text)
}

/// Whether a name is one of some.
pub(crate) fn is_among(names: &[&str], name: &str) -> bool
    ensures { result ≡ list_any (λ n. bytes_eq n.now name.now) names.now }
{
    names.iter().any(|other| *other == name)
}
