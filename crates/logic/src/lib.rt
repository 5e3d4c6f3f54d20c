// What every definition may use: a choice by a test, every fact of a list, a test or a thing for each number below a bound. There is no code.
#![tactic(auto)]
