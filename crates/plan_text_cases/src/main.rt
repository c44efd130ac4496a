// Reads the plan texts of the file `texts` and prints each one's refusal: number (width 4) and line (8). A text stands after its length in
// a column of width 8 and a line feed. An accepted plan is also written back: where that gives other bytes than the text, the line column
// shows 1 beside the number 0. tests/plan_texts/cases.rs makes the file, and what is to be printed, from document 01.
#![tactic(auto)]

use plan::Plan;
use plan_line::Line;
use std::io::Write;
use std::{fs, io};

// Whether the plan, written, gives the text again.
fn written_back(plan: Plan, text: &[u8]) -> bool {
    let mut out = [0u8; Line::TEXT];
    let Ok(count) = plan_text_write::write(plan, &mut out) else {
        return false;
    };
    let s = &out[..];
    if s.len() < count {
        return false;
    }
    check::same(&s[0..count], text)
}

fn print<R: Print>(rt: &R, number: usize, line: usize) {
    let mut first = [0u8; 4];
    column_write::write(&mut first, number as u64);
    let mut second = [0u8; 8];
    column_write::write(&mut second, line as u64);
    // A write that fails is passed over.
    let mut out = io::writer(rt);
    let _ = out.write_all(&first);
    let _ = out.write_all(&second);
    let _ = out.write_all(b"\n");
}

fn show<R: Print>(rt: &R, text: &[u8]) {
    match plan_text::read(text) {
        Ok(plan) => print(rt, 0, if written_back(plan, text) { 0 } else { 1 }),
        Err(refusal) => print(rt, refusal.number(), refusal.line()),
    }
}

fn show_all<R: Print>(rt: &R, texts: &[u8]) {
    let n = texts.len();
    // Each text says its length, so nothing counts the texts.
    let mut at: usize = 0;
    while at < n {
        if n - at < 9 {
            return;
        }
        let Some(size) = column::read(texts, at, at + 8) else {
            return;
        };
        let from = at + 9;
        let len = size as usize;
        if n - from < len {
            return;
        }
        show(rt, &texts[from..from + len]);
        at = from + len;
    }
}

fn main(rt: HostRuntime) {
    let mut buffer = [0u8; 262144];
    let Ok(mut file) = fs::open(&rt, "texts") else {
        return;
    };
    let n = plan_file::read_full(&mut file, &mut buffer);
    let s = &buffer[..];
    if n <= s.len() {
        show_all(&rt, &s[0..n]);
    }
}
