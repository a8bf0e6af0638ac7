// The boundary that C and Rust link (include/numolefays.h): every call of the library by its own definition, in numbers and slices. A function answers 0
// where the call succeeded, else the refusal's number; `place` gets the refusal's place, 0 where there is none. Outputs are written on success only.
#![tactic(auto)]

pub mod account_calls;
pub mod component_calls;
pub mod file_calls;
pub mod point_calls;
pub mod surface_calls;
pub mod table_calls;
pub mod turn_calls;
