//! Texts that are read and their faults, which come before those of a design.
use crate::rows::check_texts;
use std::test::Fail;

const ROWS: &str = r#"\ => refused 1 BadByte 1 1
module \m / end / " => refused 2 BadString 3 2
module \m / connect \b 1'00 => refused 3 BadNumber 2 13
connect \b \a => refused 4 Syntax 1 1
module \m / process \p / sync global / end / end => refused 6 Process 3 7
module \m / end => 0 0 0 0 0 0
module \m / process \p / end / end => refused 6 Process 2 2
module \m / end / module \n / connect \a \a / process \p / end / process \q / end / end => refused 6 Process 5 2
module \m / process \p / end / end / module \n / process \q / end / end => refused 6 Process 2 2
module \m / process \p / end / end / connect => refused 4 Syntax 5 2
module \m / connect \a \a / process \p / end / end => refused 6 Process 3 2
module \m / connect \a \a / end => refused 12 UnknownName \m connect"#;

#[test]
fn faults_of_the_text_come_first(rt: HostRuntime) -> Result<(), Fail> {
    check_texts(&rt, rt.alloc(), ROWS)
}
