//! Answers to numbers in a row, of which the same ones share a line.
use trial_text::Told;

/// Tells answers to the numbers from 0 on, which stand in a line each. Where one of them is refused, so is this line.
pub(crate) fn put_runs(told: &mut Told, answers: &Told, unit: &str) {
    let mut first: usize = 0;
    for (number, answer) in answers.as_str().lines().enumerate() {
        let next = number.saturating_add(1);
        if answers.as_str().lines().nth(next) != Some(answer) {
            put_run(told, first, number, unit, answer);
            first = next;
        }
    }
    if answers.is_refused() {
        told.refuse();
    }
}

/// The answer to the numbers from one to another.
fn put_run(told: &mut Told, first: usize, last: usize, unit: &str, answer: &str) {
    told.show(first);
    told.put(" to ");
    told.show(last);
    told.put_all(&[unit, ": ", answer, "\n"]);
}
