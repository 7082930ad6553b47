// Records of sixteen factors from standard input, quantized, a line of text each: what `quantize` and `answers_run` share.
// Public for these programs only. Each function is proved to run safely on every input; what is written is held to the
// Rust's answers by the programs' expected output (tests/frames).
//   frames   one record: quantized, and its line
//   run      every record until the input ends, and the summary
//   tests    what no program calls, floats as a closure has them
#![tactic(auto)]

pub mod frames;
pub mod run;
#[cfg(test)]
mod tests;
