// Threads, and what `close` does: with one seat, and with two passes out.
use lock_trials::{
    Tally, Tick, both_stand, is_refused, looked_at, there_and_back, tick_both, tick_once,
};
use std::test::Fail;
use stripe_lock::SharedStripe;

#[test]
fn two_threads_make_a_thousand_turns_each(rt: HostRuntime) -> Result<(), Fail> {
    let (tally, first, second) = tick_both(&rt, rt.alloc(), 1000).ok_or("no memory")?;
    assert_eq!(rt; tally.rows.len(), 2000);
    let mut jobs = [0, 0];
    for row in &tally.rows {
        let worker = row.worker as usize;
        assert!(rt; worker < 2);
        assert_eq!(rt; row.job, jobs[worker]);
        jobs[worker] = row.job.wrapping_add(1);
    }
    assert_eq!(rt; jobs, [1000, 1000]);
    for (worker, numbers) in [(0, &first), (1, &second)] {
        for (job, number) in numbers.iter().enumerate() {
            let at = number.checked_sub(1).ok_or("no such turn")?;
            let row = tally.rows.get(at as usize).ok_or("no such turn")?;
            assert_eq!(rt; (row.worker, row.job), (worker, job as u64));
        }
    }
    Ok(())
}

#[test]
fn a_pass_sees_the_turns_of_sixteen_threads(rt: HostRuntime) -> Result<(), Fail> {
    let seen = looked_at(&rt, rt.alloc(), 16, 6250).ok_or("no memory")?;
    assert_eq!(rt; seen, (100_000, 100_000));
    Ok(())
}

#[test]
fn both_turns_stand_at_the_numbers_told(rt: HostRuntime) -> Result<(), Fail> {
    let alloc = rt.alloc();
    let Ok((lock, mut passes)) = SharedStripe::new(alloc, Tally::new(alloc), 2) else {
        return Err("no memory".into());
    };
    let second = passes.pop().ok_or("no pass")?;
    let first = passes.pop().ok_or("no pass")?;
    let (mut a, mut b) = (Tick { job: 3 }, Tick { job: 4 });
    let stand = both_stand(&rt, lock, first, second, &mut a, &mut b);
    let (tally, x, y) = stand.ok_or("no memory")?;
    assert_eq!(rt; tally.rows.len(), 2);
    for (number, worker, job) in [(x, 0, 3), (y, 1, 4)] {
        let row = tally.rows.get(number as usize - 1).ok_or("no such turn")?;
        assert_eq!(rt; (row.worker, row.job), (worker, job));
    }
    Ok(())
}

#[test]
fn a_state_comes_back(rt: HostRuntime) -> Result<(), Fail> {
    let back = there_and_back(rt.alloc(), Tally::new(rt.alloc()));
    assert!(rt; back.is_ok());
    Ok(())
}

#[test]
fn a_lock_of_one_seat_closes(rt: HostRuntime) -> Result<(), Fail> {
    let (tally, count, floor) = tick_once(&rt, rt.alloc(), 7).ok_or("no memory")?;
    assert_eq!(rt; tally.rows.len(), 1);
    assert_eq!(rt; (tally.rows[0].worker, tally.rows[0].job), (0, 7));
    assert_eq!(rt; (count, floor), (1, 1));
    Ok(())
}

#[test]
fn close_hands_both_back_while_a_pass_is_out(rt: HostRuntime) -> Result<(), Fail> {
    assert!(rt; is_refused(rt.alloc()));
    Ok(())
}
