// What a caller in C gets from a call, and what the numbers that he gets mean: definitions and theorems only, for the functions of `set_calls`,
// `table_calls`, `verdict_calls`, `text_calls`, `page_calls` and `size_calls` and the exported ones of `calduvren`.
#![tactic(auto)]
