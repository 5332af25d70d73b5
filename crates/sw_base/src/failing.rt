/// Counts the next call, and says whether it is to fail: whether its number, from 0, is one of
/// these.
pub fn is_failing(calls: &mut u64, fails: &[u64]) -> bool {
    let call = *calls;
    *calls = calls.saturating_add(1);
    fails.contains(&call)
}
