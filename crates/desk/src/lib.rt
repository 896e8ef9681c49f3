//! The desk at which a day's instructions are taken: from the bytes of a text to the bytes of the answers.
#![tactic(auto)]

pub mod console;
pub mod day;
mod plan;
mod replies;
mod turns;
mod zeros;

#[cfg(test)]
mod tests {
    use crate::day::answer_day;
    use std::test::Fail;

    #[test]
    fn shares_come_and_go(rt: HostRuntime) -> Result<(), Fail> {
        let text = b"start 2024-03-01\ndeposit 1 0 1000\nwithdraw 1 0 1001\nwithdraw 1 0 1000";
        let answers = answer_day(rt.alloc(), text)?;
        assert!(rt; answers.as_str() == "1 ok\n2 ok\n3 no 10\n4 ok\n");
        Ok(())
    }

    #[test]
    fn collateral_comes_and_goes(rt: HostRuntime) -> Result<(), Fail> {
        let text = b"start 2024-03-01\npledge 3 1 5\nunpledge 3 1 6\nunpledge 3 1 5\nnoon\n";
        let answers = answer_day(rt.alloc(), text)?;
        assert!(rt; answers.as_str() == "1 ok\n2 ok\n3 no 11\n4 ok\n5 ok 0\n");
        Ok(())
    }

    #[test]
    fn start_is_last_opening(rt: HostRuntime) -> Result<(), Fail> {
        let answers = answer_day(
            rt.alloc(),
            b"start 2049-01-01\nstart 2048-12-31\nstart 2048-12-31\n",
        )?;
        assert!(rt; answers.as_str() == "1 no 1\n2 ok\n3 no 1\n");
        Ok(())
    }
}
