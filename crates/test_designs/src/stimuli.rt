//! Stimuli of designs whose one input is `clk`.

/// Six samples, 5 nanoseconds apart, of which the second, the fourth and the sixth have a rising edge.
pub const SIX: &str = "stimulus 0
inputs clk
block 3 0.00000001
0.0 0
0.000000005 1
end
";

/// As [`SIX`], 512 samples.
pub const MANY: &str = "stimulus 0
inputs clk
block 256 0.00000001
0.0 0
0.000000005 1
end
";

/// The clock is 1 at the first sample and 0 at the second.
pub const HIGH_FIRST: &str = "stimulus 0
inputs clk
block 1 1.0
0.0 1
0.5 0
end
";

/// The stimulus of this name.
pub fn stimulus(name: &str) -> &'static str {
    match name {
        "six" => SIX,
        "many" => MANY,
        "high_first" => HIGH_FIRST,
        _ => "none of these",
    }
}
