// Reads the plan text in `plan.txt` again and again, so that bench/ can count what that costs: the difference between two counts of repeats.
// Standard input has a row: how often (width 8). It prints a sum of what the calls gave.
#![tactic(auto)]

use answer::Refusal;

// The last digit of cell 0's pattern differs from one reading to the next.
fn read_often(text: &mut [u8], times: u64) -> u64 {
    let mut sum: u64 = 0;
    for k in 0..times {
        if 92 < text.len() {
            text[92] = 48 + (k % 10) as u8;
        }
        let number = match plan_text::read(text) {
            Ok(_) => 0,
            Err(refusal) => refusal.number() as u64,
        };
        sum = (sum + number % 16) % 1000;
    }
    sum
}

// The text is read and its record tested once before: so `read` and the search for R have two callers each and stay functions, as in the library.
fn repeat<R: Print>(rt: &R, text: &mut [u8], times: u64) {
    let checked = match plan_text::read(text) {
        Ok(plan) => plan_period::check(plan),
        // There is no record to test.
        Err(_) => Err(Refusal::InvalidPlan),
    };
    let number = match checked {
        Ok(()) => 0,
        Err(refusal) => refusal.number() as u64,
    };
    let _ = rt.print(number);
    let _ = rt.print(read_often(text, times));
}

fn main(rt: HostRuntime) {
    let mut row = [0u8; 9];
    let mut input = rt.reader();
    let got = plan_file::read_full(&mut input, &mut row);
    if got < 9 {
        return;
    }
    let times = column::read(&row, 0, 8).unwrap_or(0);
    let mut text = [0u8; plan_file::TEXT];
    let n = plan_file::read(&rt, &mut text);
    repeat(&rt, &mut text[0..n], times);
}
