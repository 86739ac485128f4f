// The small rule files of documents 01 and 02: a computed check of the definitions, in specs/.
#![tactic(auto)]
