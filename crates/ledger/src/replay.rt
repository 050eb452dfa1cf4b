// A run of calls on a new recorder.
ghost use Rattle.std.specs.Prelude.{◌≡◌, OnErr, min, length, take, drop};
ghost use Rattle.ledger.specs.Laws.{Led, LedAlways};
ghost use Rattle.ledger.specs.Ledger.{empty, ledger};
ghost use Rattle.ledger.specs.Made.{Made, draw_list};
ghost use Rattle.ledger.specs.Runs.{AllAnswered};

use crate::call::{Answer, Call};
use draws::drawable::Drawable;
use draws::strip::Strip;
use record::recorder::CommandRecorder;
use refusal::Refusal;

// Makes one call. A refused one leaves the recorder as it was.
pub fn make_call<D: Drawable + Copy>(
    recorder: &mut CommandRecorder,
    call: Call<D>,
    draws: &mut [D],
    strips: &[Strip],
) -> Result<Answer, Refusal>
    ensures made { Made (λ d. D.box_of d strips.now) D.mode_of call result recorder.old recorder.new draws.old draws.new }
    ensures kept { OnErr result (recorder.new ≡ recorder.old) }
{
    Ok(match call {
        Call::Reset { width, height } => {
            recorder.reset(width, height)?;
            Answer::Reset
        }
        Call::Draw(draw) => Answer::Drawn(recorder.push_draw(draw, draws, strips)?),
        Call::Open { props, filter } => Answer::Entered(recorder.push_layer(props, filter)?),
        Call::Close => Answer::Left(recorder.pop_layer()?),
    })
}

// What a run of calls leaves: the recorder, and how many of the calls were made.
#[derive(Drop)]
pub struct Replayed {
    pub recorder: CommandRecorder,
    pub made: usize,
}

// Makes the calls one after another on a new recorder, as many as the answer list has places for, and writes down each answer.
pub fn replay<D: Drawable + Copy>(
    calls: &[Call<D>],
    draws: &mut [D],
    strips: &[Strip],
    answers: &mut [Result<Answer, Refusal>],
) -> Replayed
    ensures made { result.made ≡ min (length calls.now) (length answers.old) }
    ensures later { drop result.made answers.new ≡ drop result.made answers.old }
    ensures answered { AllAnswered (λ d. D.box_of d strips.now) D.mode_of (length draws.old) empty (take result.made calls.now) (take result.made answers.new) }
    ensures list { draws.new ≡ draw_list (λ d. D.box_of d strips.now) D.mode_of empty (take result.made calls.now) (take result.made answers.new) draws.old }
    ensures led { Led (λ d. D.box_of d strips.now) D.mode_of (ledger (take result.made calls.now) (take result.made answers.new)) result.recorder draws.new }
    ensures always { LedAlways (λ d. D.box_of d strips.now) D.mode_of (ledger (take result.made calls.now) (take result.made answers.new)) result.recorder draws.new }
{
    let mut recorder = CommandRecorder::new();
    let made = calls.len().min(answers.len());
    // By index: after a `zip` with `answers.iter_mut()` a proof knows no answer that was written.
    for i in 0..made {
        answers[i] = make_call(&mut recorder, calls[i], draws, strips);
    }
    Replayed { recorder, made }
}
