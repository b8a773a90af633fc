//! The texts whole, as they are written by hand.
use crate::{design, stimulus_text};
use std::test::Fail;

const ONE_STAGE: &[u8] = br"module \demo
  wire input 1 \clk
  wire width 16 \q0
  wire width 16 $sum0
  cell $add $adder0
    parameter \A_SIGNED 0
    parameter \A_WIDTH 16
    parameter \B_SIGNED 0
    parameter \B_WIDTH 16
    parameter \Y_WIDTH 16
    connect \A \q0
    connect \B 16'0000000000000001
    connect \Y $sum0
  end
  cell $dff $register0
    parameter \CLK_POLARITY 1'1
    parameter \WIDTH 16
    connect \CLK \clk
    connect \D $sum0
    connect \Q \q0
  end
end
";

const TWO_STAGES: &[u8] = br"module \demo
  wire input 1 \clk
  wire width 16 \q0
  wire width 16 $sum0
  wire width 16 \q1
  wire width 16 $sum1
  cell $add $adder0
    parameter \A_SIGNED 0
    parameter \A_WIDTH 16
    parameter \B_SIGNED 0
    parameter \B_WIDTH 16
    parameter \Y_WIDTH 16
    connect \A \q0
    connect \B 16'0000000000000001
    connect \Y $sum0
  end
  cell $dff $register0
    parameter \CLK_POLARITY 1'1
    parameter \WIDTH 16
    connect \CLK \clk
    connect \D $sum0
    connect \Q \q0
  end
  cell $add $adder1
    parameter \A_SIGNED 0
    parameter \A_WIDTH 16
    parameter \B_SIGNED 0
    parameter \B_WIDTH 16
    parameter \Y_WIDTH 16
    connect \A \q1
    connect \B \q0
    connect \Y $sum1
  end
  cell $dff $register1
    parameter \CLK_POLARITY 1'1
    parameter \WIDTH 16
    connect \CLK \clk
    connect \D $sum1
    connect \Q \q1
  end
end
";

const STIMULUS: &[u8] = b"stimulus 0
inputs clk
block 16384 0.00000001
0.0 0
0.000000005 1
end
";

#[test]
fn designs_of_one_and_of_two_stages_are_written(rt: HostRuntime) -> Result<(), Fail> {
    assert_eq!(rt; design(rt.alloc(), 1)?.as_slice(), ONE_STAGE);
    assert_eq!(rt; design(rt.alloc(), 2)?.as_slice(), TWO_STAGES);
    Ok(())
}

#[test]
fn the_stimulus_is_written(rt: HostRuntime) -> Result<(), Fail> {
    assert_eq!(rt; stimulus_text(rt.alloc())?.as_slice(), STIMULUS);
    Ok(())
}
