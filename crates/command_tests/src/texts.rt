//! The texts of the program about itself.
use command_words::{help_text, version_text};

#[test]
fn texts_have_lines_of_at_most_80_bytes(rt: HostRuntime) {
    for text in [help_text(), version_text()] {
        assert!(rt; text.ends_with("\n"));
        for line in text.lines() {
            assert!(rt; line.len() <= 80, "{line}");
        }
    }
}
