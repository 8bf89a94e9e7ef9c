//! What variables hold after calls, each in a new environment.
use crate::trial::{Call, Trial};
use scons_base::EnvId;

/// What a variable may hold before it is set: what a new environment has, or a value of each kind.
const HELD: [&str; 8] = [
    "absent",
    "nil",
    "true",
    "7",
    "'a b'",
    "w[a,b]",
    "['a','b']",
    "{A:-1}",
];

/// For each of the names in the first field what it holds after each call, where it held the second field and is given the
/// third; where there are two fields, it held what a new environment has.
pub(crate) fn put_called(trial: &mut Trial, calls: &[Call], text: &str) {
    let Some((names, fields)) = text.split_once('|') else {
        return trial.told.refuse();
    };
    let (holds, given) = fields.split_once('|').unwrap_or(("absent", fields));
    for name in names.split(' ') {
        trial.told.put_all(&[name, "|", fields]);
        put_calls(trial, calls, name, holds, given);
        trial.told.put("|\n");
    }
}

/// What `X`, a word-list variable, a list variable and `CPPDEFINES` hold after they are set to a value, over each of the values
/// that they may hold.
pub(crate) fn put_taken(trial: &mut Trial, given: &str) {
    for holds in HELD {
        trial.told.put_all(&[given, " over ", holds]);
        put_calls(trial, &[Call::Set], "X", holds, given);
        put_calls(trial, &[Call::Set], "CCFLAGS", holds, given);
        put_calls(trial, &[Call::Set], "LIBS", holds, given);
        put_calls(trial, &[Call::Set], "CPPDEFINES", holds, given);
        trial.told.put("|\n");
    }
}

/// What a variable that holds one value holds after each call with another one. `absent` leaves it as a new environment has it.
fn put_calls(trial: &mut Trial, calls: &[Call], name: &str, holds: &str, given: &str) {
    let env = trial.env();
    for call in calls {
        trial.renew();
        if holds != "absent" {
            trial.change_to(Call::Set, name, holds);
        }
        trial.put_changed(*call, name, given);
    }
    trial.enter(env);
}

/// What each of these variables holds in a new environment.
pub(crate) fn put_initial(trial: &mut Trial, names: &str) {
    let env = trial.env();
    trial.renew();
    for name in names.split(' ') {
        trial.told.put_all(&[name, "|"]);
        trial.put_held(name);
        trial.told.put("|\n");
    }
    trial.enter(env);
}

/// The values that variables have in a new environment, a clone of it, an overlay, one in front of that and its clone, which
/// were changed apart.
pub(crate) fn put_apart(trial: &mut Trial) {
    let env = trial.env();
    let first = trial.renew();
    trial.change_to(Call::Set, "CCFLAGS", "'-O'");
    let clone = trial.enter_clone();
    trial.change_to(Call::Append, "CCFLAGS", "' -g'");
    trial.enter(first);
    trial.change_to(Call::Set, "X", "1");
    trial.change_to(Call::Overlay, "CC", "'tcc'");
    let overlay = trial.env();
    let front = trial.enter_overlay(&[]);
    trial.change_to(Call::Append, "CC", "' -m'");
    trial.change_to(Call::SetDefault, "X", "2");
    let flat = trial.enter_clone();
    trial.enter(first);
    trial.change_to(Call::Set, "X", "3");
    for name in ["CCFLAGS", "CC", "X"] {
        put_in_each(trial, &[first, clone, overlay, front, flat], name);
    }
    trial.enter(env);
}

/// What a variable holds in each environment.
fn put_in_each(trial: &mut Trial, envs: &[EnvId], name: &str) {
    trial.told.put(name);
    for env in envs {
        trial.enter(*env);
        trial.told.put("|");
        trial.put_held(name);
    }
    trial.told.put("|\n");
}
