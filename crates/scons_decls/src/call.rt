//! The calls of SCons names, with their arguments flattened and typed.
use crate::builder::Builder;
use crate::given::{Given, Nodes, Pairs, Variables};
use env_subst::Mode;
use env_vars::EnvValue;
use scons_base::{Text, Texts};

/// Which builder makes the targets.
#[derive(Drop)]
pub enum Maker {
    Object,
    Program,
    StaticLibrary,
    /// A builder of the environment's own, by its name.
    Own(Text),
}

/// How an environment's variables change.
#[derive(Clone, Copy, Debug, PartialEq, Eq)]
pub enum Change {
    Append,
    Prepend,
    AppendUnique,
    Replace,
    SetDefault,
}

/// One call. It is made in an environment: the default one where the name stands alone.
#[derive(Drop)]
pub enum Call {
    Environment(Variables),
    DefaultEnvironment(Variables),
    Clone(Variables),
    Change(Change, Variables),
    /// `env['X'] = v`
    Set(Text, EnvValue),
    /// `env['BUILDERS']['N'] = b`
    SetBuilder(Text, u32),
    /// `env['X']` and `env.get('X')`
    Get(Text),
    Subst(Text, Mode),
    Decider(Text),
    /// `Builder(..)`
    NewBuilder(Builder),
    Rules(RuleCall),
    Says(SayCall),
    VariantDir {
        variant: Given,
        source: Given,
        duplicate: bool,
    },
    Default(Nodes),
    Help(Text),
    File(Given),
    Dir(Given),
}

/// A call that declares rules.
#[derive(Drop)]
pub enum RuleCall {
    Build {
        maker: Maker,
        targets: Option<Nodes>,
        sources: Nodes,
        variables: Variables,
    },
    Command {
        targets: Nodes,
        sources: Nodes,
        action: Texts,
        variables: Variables,
    },
    /// `Textfile(target, source, SUBST_DICT)`
    Textfile {
        targets: Nodes,
        texts: Texts,
        pairs: Pairs,
        variables: Variables,
    },
    /// `Substfile(target, source, SUBST_DICT)`
    Substfile {
        targets: Option<Nodes>,
        sources: Nodes,
        pairs: Pairs,
        variables: Variables,
    },
    Install {
        dirs: Nodes,
        sources: Nodes,
    },
    InstallAs {
        targets: Nodes,
        sources: Nodes,
    },
}

/// A call that says something of targets, or of an alias.
#[derive(Drop)]
pub enum SayCall {
    Depends { targets: Nodes, nodes: Nodes },
    Requires { targets: Nodes, nodes: Nodes },
    Ignore { targets: Nodes, nodes: Nodes },
    AlwaysBuild(Nodes),
    Alias { names: Nodes, members: Nodes },
}
