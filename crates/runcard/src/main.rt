// Reads one card from standard input and runs it.
#![tactic(auto)]

fn main(rt: HostRuntime) {
    if let Err(failure) = report::over_card(&mut rt.stdin(), &mut rt.stdout(), play::play) {
        let _ = eprintln!(rt; "runcard: {failure}");
    }
}
