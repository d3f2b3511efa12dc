// What apply-batch writes, from the answer of the call and the buffers that it leaves: master.bin, rejects.bin and the printed line.
#![tactic(auto)]

pub mod line;
pub mod new_files;
pub mod parts;
pub mod stop;
