// What somebody learns who only has the line, before the command stage is entered. There is no code here.
#![tactic(auto)]
