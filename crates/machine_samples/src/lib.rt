// The paper's starred samples as one table, and samples about whole sheets: theorems only. There is no code here.
#![tactic(auto)]
