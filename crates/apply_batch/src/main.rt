// apply-batch: applies the batch in the present folder to the master beside it and prints one line. Document 01, "The printed line".
#![tactic(auto)]

fn main(rt: HostRuntime) {
    apply_files::run(&rt);
}
