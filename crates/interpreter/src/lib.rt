// One step of the machine, and a run of them, on lent files: a word read, its access tested, its operation done, and PC advanced.
#![tactic(auto)]

mod forms;

ghost use Rattle.std.specs.Prelude.{◌≡◌, ◌≤◌, [], ◌∷◌, length, nat_le};
ghost use Rattle.machine.specs.Machine.{machine, advanced};
ghost use Rattle.setting.specs.Allowed.{allowed_of};
ghost use Rattle.setting.specs.Numbers.{number_of};
ghost use Rattle.order.specs.Steps.{steps};
ghost use Rattle.machine.specs.Needs.{need, first_failed};
ghost use Rattle.machine.specs.Step.{lengths_are, refusal_of, exec_of, step_of, stepped_as};
ghost use Rattle.machine.specs.Run.{run_of, ran_as, moved_on};
ghost use Rattle.machine.specs.Private.{Checked, stepped_by, went_as};

use machine::{Ran, Scalars, Stepped};
use setting::{Answer, Refusal, Setting};

// One word's step, in the loop; `Progress::moved_on` is that of all behind it, with one sum (`advanced`, `moved_on`: two definitions).
fn advance(scalars: Scalars) -> Scalars
    ensures { result ≡ advanced scalars }
{
    Scalars {
        pc: scalars.pc.wrapping_add(4),
        ..scalars
    }
}

// How far a stretch of at most 256 words came: how many were done, of a refused one too (document 01), and the answer that it ended with.
#[derive(Clone, Copy)]
struct Progress {
    done: usize,
    answer: Answer,
    ghost short: { done ≤ 256 },
}

impl Progress {
    // The scalars after the words that were done.
    fn moved_on(self, scalars: Scalars) -> Scalars
        ensures { result ≡ moved_on self.done scalars }
    {
        if self.done == 0 {
            return scalars;
        }
        Scalars {
            pc: scalars.pc.wrapping_add(4 * (self.done as u64)),
            ..scalars
        }
    }
}

fn sized(z: usize, p: usize, zt: usize) -> bool
    ensures { result ≡ lengths_are z p zt }
{
    (z == element::VECTOR_FILE) & (p == element::PREDICATE_FILE) & (zt == element::TABLE_FILE)
}

// What so many words are refused for before any of them: 1, 2 or 8.
fn before_any(setting: Setting, z: usize, p: usize, zt: usize, words: usize) -> Answer
    ensures { number_of result ≡ first_failed (need 1 (allowed_of setting) ∷ need 2 (lengths_are z p zt) ∷ need 8 (nat_le words 256) ∷ []) }
{
    if !setting::allowed(setting) {
        return Err(Refusal::NotAllowed);
    }
    if !sized(z, p, zt) {
        return Err(Refusal::WrongLength);
    }
    if words > 256 {
        return Err(Refusal::TooManyWords);
    }
    Ok(())
}

// One word of a run, where the setting is allowed and each file has its length. A `match` and no table of closures, which would be
// handed out, since the rows' arms take different files; a place is a number (crates/encoding/src/table.rt says why). The files stay three
// parameters, here and below: a word is lent one of them alone, and `run` and `step`, which README.md names, are lent them so.
fn step_in_run(
    z: &mut [u8],
    p: &mut [u8],
    zt: &[u8],
    scalars: Scalars,
    setting: Setting,
    word: u32,
) -> Answer
    requires { Checked setting (machine z.old p.old zt.now scalars) }
    ensures { stepped_by result z.new p.new zt.now scalars ≡ step_of setting word (machine z.old p.old zt.now scalars) }
{
    let Some(place) = decoder::place(setting.features, word) else {
        return Err(Refusal::Undefined);
    };
    match place {
        0 => forms::pext(p, setting, scalars, false, word),
        1 => forms::pext(p, setting, scalars, true, word),
        2 => forms::psel(p, setting, scalars, word),
        3 => forms::luti4::<false>(z, zt, setting, scalars, word),
        4 => forms::luti4::<true>(z, zt, setting, scalars, word),
        5 => forms::narrow(z, setting, scalars, word),
        _ => Err(Refusal::Undefined),
    }
}

// The words from the first, up to one that is refused.
fn checked_run(
    z: &mut [u8],
    p: &mut [u8],
    zt: &[u8],
    scalars: Scalars,
    setting: Setting,
    words: &[u32],
) -> Progress
    requires { Checked setting (machine z.old p.old zt.now scalars) × (length words.now ≤ 256) }
    ensures { went_as (number_of result.answer) result.done z.new p.new zt.now scalars ≡ steps (refusal_of setting) (exec_of setting) words.now 0 (machine z.old p.old zt.now scalars) }
{
    let mut held = scalars;
    for n in 0..words.len() {
        let answer = step_in_run(&mut *z, &mut *p, zt, held, setting, words[n]);
        if answer.is_err() {
            return Progress { done: n, answer };
        }
        held = advance(held);
    }
    Progress {
        done: words.len(),
        answer: Ok(()),
    }
}

// At most 256 words, stepped one after the other; it stops before the first that is refused.
fn went(
    z: &mut [u8],
    p: &mut [u8],
    zt: &[u8],
    scalars: Scalars,
    setting: Setting,
    words: &[u32],
) -> Progress
    ensures { went_as (number_of result.answer) result.done z.new p.new zt.now scalars ≡ run_of setting words.now (machine z.old p.old zt.now scalars) }
{
    let answer = before_any(setting, z.len(), p.len(), zt.len(), words.len());
    if answer.is_err() {
        return Progress { done: 0, answer };
    }
    checked_run(z, p, zt, scalars, setting, words)
}

// A stretch of words. ZT0 is lent for words to come that write it; today it stays.
pub fn run(
    z: &mut [u8],
    p: &mut [u8],
    zt: &mut [u8],
    scalars: Scalars,
    setting: Setting,
    words: &[u32],
) -> Ran
    ensures { ran_as result z.new p.new zt.new ≡ run_of setting words.now (machine z.old p.old zt.old scalars) }
{
    let progress = went(z, p, zt, scalars, setting, words);
    Ran {
        answer: progress.answer,
        done: progress.done,
        scalars: progress.moved_on(scalars),
    }
}

// One word: a run of it.
pub fn step(
    z: &mut [u8],
    p: &mut [u8],
    zt: &mut [u8],
    scalars: Scalars,
    setting: Setting,
    word: u32,
) -> Stepped
    ensures { stepped_as result z.new p.new zt.new ≡ step_of setting word (machine z.old p.old zt.old scalars) }
{
    let words = [word];
    let progress = went(z, p, zt, scalars, setting, &words);
    Stepped {
        answer: progress.answer,
        scalars: progress.moved_on(scalars),
    }
}
