// Reads one card from standard input, runs it and says why its last peek found what it found.
#![tactic(auto)]

fn main(rt: HostRuntime) {
    if let Err(failure) = report::over_card(&mut rt.stdin(), &mut rt.stdout(), why::why) {
        let _ = eprintln!(rt; "whyval: {failure}");
    }
}
