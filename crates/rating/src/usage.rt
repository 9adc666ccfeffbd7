// How a calculation is asked for, told where the numbers are not all there.
use asked::Asked;

pub fn usage(asked: Asked, named: bool) -> &'static [u8] {
    match (asked, named) {
        (Asked::Share, false) => {
            b"usage: 9 numbers wanted: rating share D L S K W FAST SLOW RATED MINUTES\n"
        }
        (Asked::Factor, false) => {
            b"usage: 32 numbers wanted: rating factor D L S K W FAST SLOW RATED H0 .. H23\n"
        }
        (Asked::Current, false) => {
            b"usage: 11 numbers wanted: rating current D L S K W FAST SLOW RATED H R MINUTES\n"
        }
        (Asked::Share, true) => {
            b"usage: one number wanted after the file: rating share FILE MINUTES\n"
        }
        (Asked::Factor, true) => {
            b"usage: 24 numbers wanted after the file: rating factor FILE H0 .. H23\n"
        }
        (Asked::Current, true) => {
            b"usage: 3 numbers wanted after the file: rating current FILE H R MINUTES\n"
        }
    }
}
