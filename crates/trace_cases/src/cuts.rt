// A sound file that is cut short at each of its bytes, and one with more bytes after it.
use crate::answers::{Answer, answers};
use crate::sample;

// What is answered of so many bytes of a sound file and others after it.
fn answer_of(size: usize) -> Answer<u32> {
    if size < sample::SIZE {
        Err((1, sample::command_cut(size)))
    } else if size == sample::SIZE {
        Ok(16)
    } else {
        Err((6, sample::SIZE))
    }
}

#[test]
fn every_length(rt: HostRuntime) {
    let files = [sample::FILE; 2];
    let file = files.as_flattened();
    for size in 0..=2 * sample::SIZE {
        answers(
            &rt,
            &file[0..size],
            answer_of(size),
            &format_args!("{size} bytes"),
        );
    }
}
