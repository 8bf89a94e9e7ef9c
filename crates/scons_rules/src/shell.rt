//! Paths that stand in lines of the shell.
ghost use Rattle.std.specs.Prelude.{◌≡◌, ◌≢◌, Ok, Err, IfErr, OnOk};
ghost use Rattle.std.specs.List.{list_any};
ghost use Rattle.scons_rules.specs.Shell.{acts_on_shell, is_plain, in_line, all_in_line};

use crate::fault::RuleReadFault;
use scons_base::PathText;
use scons_decls::NameFault;

/// Refuses the first of these paths that the shell wouldn't take as one word.
pub(crate) fn refuse_for_shell(paths: &[PathText]) -> Result<(), RuleReadFault>
    ensures ok { OnOk result (all_in_line paths.now ≡ Ok tt) }
    ensures fault { IfErr result (λ e. e ≢ RuleReadFault.Memory → all_in_line paths.now ≡ Err e) }
{
    for path in paths {
        refuse_path_for_shell(path)?;
    }
    Ok(())
}

#[tactic(auto, unfolding(crate::specs::Shell::in_line))]
pub(crate) fn refuse_path_for_shell(path: &PathText) -> Result<(), RuleReadFault>
    ensures ok { OnOk result (in_line path.now ≡ Ok tt) }
    ensures fault { IfErr result (λ e. e ≢ RuleReadFault.Memory → in_line path.now ≡ Err e) }
{
    if is_plain(path.as_str().as_bytes()) {
        return Ok(());
    }
    Err(RuleReadFault::Name(NameFault::ShellPath(path.copy()?)))
}

/// Whether the shell acts on no byte of a path, and no command takes it for an option. A blank is written as it stands.
fn is_plain(path: &[u8]) -> bool
    ensures { result ≡ is_plain path.now }
{
    !path.starts_with(b"-") && !acts_somewhere(path)
}

fn acts_somewhere(path: &[u8]) -> bool
    ensures { result ≡ list_any acts_on_shell path.now }
{
    path.iter().any(|byte| acts_on_shell(*byte))
}

/// The bytes that the shell acts on beside a blank.
#[tactic(auto, unfolding(crate::specs::Shell::acts_on_shell))]
fn acts_on_shell(byte: u8) -> bool
    ensures { result ≡ acts_on_shell byte }
{
    b"\t\n;&|<>()$`\\\"'*?[]#~!".contains(&byte)
}
