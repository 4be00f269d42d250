//! What every crate may use: vectors that contracts see as lists, and small functions on lists,
//! flags and texts.
#![tactic(auto)]

mod ascending;
mod digits;
mod flags;
mod list;
mod tables;
mod white;

// A vector that contracts see as the list of its items.
pub use list::Listed;

// Ascending lists of numbers.
pub use ascending::{
    holds, holds_ascending, holds_sorted, is_inside, is_inside_ascending, sort_once,
};

// Lists of lists, and flags as numbers.
pub use flags::true_numbers;
pub use tables::{empty_lists, empty_vectors};

// Texts.
pub use digits::has_digits_alone;
pub use white::{is_white_byte, trim, trim_back, trim_front};

#[cfg(test)]
mod tests {
    use super::*;
    use std::test::Fail;

    #[test]
    fn sorts_and_finds(rt: HostRuntime) -> Result<(), Fail> {
        let mut numbers = vec![in rt.alloc(); 9u32, 4, 12, 4, 1, 30, 7, 25, 18, 2, 40]?;
        sort_once(&mut numbers);
        assert_eq!(rt;
            numbers.as_slice(),
            [1, 2, 4, 7, 9, 12, 18, 25, 30, 40].as_slice()
        );
        assert!(rt; holds(numbers.as_slice(), 30) && !holds(numbers.as_slice(), 31));
        Ok(())
    }

    #[test]
    fn makes_tables(rt: HostRuntime) -> Result<(), Fail> {
        let flags = true_numbers(rt.alloc(), &[true, false, true])?;
        assert_eq!(rt; flags.as_slice(), [0, 2].as_slice());
        assert_eq!(rt; empty_lists::<u32>(rt.alloc(), 3)?.len(), 3);
        assert_eq!(rt; empty_vectors::<u32>(rt.alloc(), 2)?.len(), 2);
        Ok(())
    }

    #[test]
    fn trims_texts(rt: HostRuntime) -> Result<(), Fail> {
        assert_eq!(rt; trim(b" \ta b\n"), b"a b".as_slice());
        assert!(rt;
            trim(b" \n").is_empty() && has_digits_alone(b"0129") && !has_digits_alone(b"1a")
        );
        Ok(())
    }
}
