//! How long a value may be that is given to a clone or to one call.
use crate::trial::{Call, Trial};

/// Whether values are taken where the variable has half of the bytes that may be given: a text that is all, a text of one byte more, a
/// list that is all with the space between its items, and a list of one byte more.
pub(crate) fn put_widest(trial: &mut Trial) {
    let env = trial.env();
    trial.renew();
    trial.change_to(Call::Set, "T", "8388608*a");
    trial.put_given("T", "'$T$T'");
    trial.put_given("T", "'$T$T.'");
    trial.put_given("T", "['$T',8388607*b]");
    trial.put_given("T", "['$T',8388608*b]");
    trial.enter(env);
}
