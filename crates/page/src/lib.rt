// What a sheet comes to and the lines that are printed of it: definitions and theorems only.
#![tactic(auto)]
