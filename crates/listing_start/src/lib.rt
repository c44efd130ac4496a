// The run listing's calls beside the next line's: start from a plan text, and a refusal's line. Each answers any input.
#![tactic(auto)]

ghost use Rattle.std.specs.Prelude.{◌≡◌, length};
ghost use Rattle.listing_start.specs.Answers.{start_answer, refusal_written, refusal_place};

use answer::Refusal;
use lines::Run;
use system::System;

// A run at power-on.
pub fn start(text: &[u8]) -> Result<Run, Refusal>
    ensures { result ≡ start_answer text.now }
{
    let read = plan_text::step::read(text)?;
    let plan = read.plan;
    let period = read.period;
    let system = System::started(plan, period);
    let single = memory::step::power_on(&plan);
    Ok(Run {
        plan,
        period,
        system,
        single,
        frame: 0,
    })
}

// The line of a refusal fills the first bytes of the buffer, and so many are given; where nothing is refused nothing is written.
pub fn refusal(refused: Option<Refusal>, out: &mut [u8]) -> Result<usize, Refusal>
    ensures { (result ≡ refusal_written refused (length out.old)) × (out.new ≡ refusal_place refused out.old) }
{
    if out.len() < run_line::step::REFUSAL {
        return Err(Refusal::WrongLength);
    }
    let Some(refusal) = refused else {
        return Ok(0);
    };
    run_line::step::write_refusal(out, refusal);
    Ok(run_line::step::REFUSAL)
}
