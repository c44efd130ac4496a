// Plan texts as definitions and laws: the form of a line, what refuses a text, the plan that it means, and the text of a plan.
// The code that reads and writes them is in `plan_line`, `plan_text`, `plan_writer` and `plan_text_write`.
#![tactic(auto)]
