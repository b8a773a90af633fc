//! Designs in RTLIL.

/// A counter of 8 bits that counts at the rising edges of its clock.
pub const COUNTER: &str = r"module \counter
wire input 1 \clk
wire width 8 output 2 \q
wire width 8 $n
cell $add $a
parameter \A_WIDTH 8
parameter \B_WIDTH 1
parameter \Y_WIDTH 8
connect \A \q
connect \B 1'1
connect \Y $n
end
cell $dff $r
parameter \CLK_POLARITY 1'1
parameter \WIDTH 8
connect \CLK \clk
connect \D $n
connect \Q \q
end
end
";

/// The counter as Yosys writes it, with attributes and indented lines.
pub const COUNTER_AS_WRITTEN: &str = r#"autoidx 5
attribute \top 1
attribute \src "counter.v:1.1-7.10"
module \counter
  wire input 1 \clk
  attribute \init 8'00000000
  wire width 8 output 2 \q
  wire width 8 $n
  cell $add $a
    parameter \A_SIGNED 0
    parameter \A_WIDTH 8
    parameter \B_SIGNED 0
    parameter \B_WIDTH 1
    parameter \Y_WIDTH 8
    connect \A \q
    connect \B 1'1
    connect \Y $n
  end
  cell $dff $r
    parameter \CLK_POLARITY 1'1
    parameter \WIDTH 8
    connect \CLK \clk
    connect \D $n
    connect \Q \q
  end
end
"#;

/// `t` and `b` clock each other by their parity: once `clk` is 1, one of them changes in each round, so that
/// no sample settles.
pub const RING: &str = r"module \ring
wire input 1 \clk
wire \t
wire \b
wire $p
wire $o
wire $t
wire $b
cell $add $ap
parameter \A_WIDTH 1
parameter \B_WIDTH 1
parameter \Y_WIDTH 1
connect \A \t
connect \B \b
connect \Y $p
end
cell $add $ao
parameter \A_WIDTH 1
parameter \B_WIDTH 1
parameter \Y_WIDTH 1
connect \A $p
connect \B \clk
connect \Y $o
end
cell $add $at
parameter \A_WIDTH 1
parameter \B_WIDTH 1
parameter \Y_WIDTH 1
connect \A \t
connect \B 1'1
connect \Y $t
end
cell $add $ab
parameter \A_WIDTH 1
parameter \B_WIDTH 1
parameter \Y_WIDTH 1
connect \A \b
connect \B 1'1
connect \Y $b
end
cell $dff $rt
parameter \CLK_POLARITY 1'1
parameter \WIDTH 1
connect \CLK $o
connect \D $t
connect \Q \t
end
cell $dff $rb
parameter \CLK_POLARITY 1'1
parameter \WIDTH 1
connect \CLK $p
connect \D $b
connect \Q \b
end
end
";

/// The design of this name.
pub fn design(name: &str) -> &'static str {
    match name {
        "counter" => COUNTER,
        "ring" => RING,
        _ => "none of these",
    }
}
