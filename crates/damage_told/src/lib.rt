// Theorems only, in specs/: what the offset and length of the first damage stretch tell, of an area and in the report.
#![tactic(auto)]
