use crate::NativeHistogramBuckets;
use std::process::Abort;
use std::test::Fail;

const FAR_BACK: i64 = i64::MIN;

const FAR_ON: i64 = i64::MAX;

// Spans and deltas that the reader refuses with this number and place, which are the published ones.
fn refused<'x>(
    rt: &impl Abort,
    spans: &'x [(i32, u32)],
    deltas: &'x [i64],
    number: u8,
    place: i64,
) -> Result<(), Fail> {
    let Err(fault) = (NativeHistogramBuckets { spans, deltas }).read() else {
        return Err(Fail::new("nothing was refused"));
    };
    assert_eq!(rt; fault.number(), number);
    assert_eq!(rt; fault.place(), place);
    Ok(())
}

// Spans and deltas that the reader takes, with the number of pairs and the sum of their counts.
fn taken<'x>(
    rt: &impl Abort,
    spans: &'x [(i32, u32)],
    deltas: &'x [i64],
    pairs: u64,
    sum: u64,
) -> Result<(), Fail> {
    let reader = (NativeHistogramBuckets { spans, deltas }).read()?;
    let sums = reader.fold((0u64, 0u64), |(seen, total), (_, count)| {
        (seen.wrapping_add(1), total.wrapping_add(count))
    });
    assert_eq!(rt; sums, (pairs, sum));
    Ok(())
}

// 11 comes before every other refusal; a sum in 32 bits would be 0 in the last row but one.
fn lengths(rt: &impl Abort) -> Result<(), Fail> {
    refused(rt, &[], &[1], 11, 1)?;
    refused(rt, &[(0, 0)], &[1], 11, 1)?;
    refused(rt, &[(0, 2)], &[1], 11, 1)?;
    refused(rt, &[(i32::MAX, 2), (-1, 0)], &[FAR_BACK], 11, 1)?;
    refused(rt, &[(0, 0x8000_0000), (0, 0x8000_0000)], &[], 11, 0)?;
    refused(rt, &[(0, u32::MAX), (0, u32::MAX), (0, 3)], &[1], 11, 1)
}

// 12, then 13, then 14 for each span in turn, and 15 after all spans.
fn places(rt: &impl Abort) -> Result<(), Fail> {
    refused(rt, &[(5, 0)], &[], 12, 0)?;
    refused(rt, &[(0, 0), (0, 0)], &[], 12, 0)?;
    refused(rt, &[(0, 1), (-1, 0)], &[-1], 12, 1)?;
    refused(rt, &[(0, 1), (-1, 1)], &[-1, 0], 13, 1)?;
    refused(rt, &[(0, 1), (i32::MIN, 1)], &[1, 1], 13, 1)?;
    refused(rt, &[(i32::MAX, 1), (-1, 1)], &[1, 1], 14, 0)?;
    refused(rt, &[(262_145, 2)], &[1, 1], 14, 0)?;
    refused(rt, &[(-274_945, 1)], &[1], 14, 0)?;
    refused(
        rt,
        &[(0, 1), (0, 1), (i32::MAX, 1)],
        &[FAR_ON, FAR_ON, 1],
        14,
        2,
    )
}

// 15, at the first delta after which the count is out of range.
fn counts(rt: &impl Abort) -> Result<(), Fail> {
    refused(rt, &[(0, 1)], &[-1], 15, 0)?;
    refused(rt, &[(0, 2)], &[0, FAR_BACK], 15, 1)?;
    refused(rt, &[(0, 2)], &[FAR_ON, FAR_ON], 15, 1)?;
    refused(rt, &[(0, 3)], &[FAR_ON, 1, FAR_BACK], 15, 1)?;
    refused(rt, &[(0, 3)], &[1, 1, -3], 15, 2)
}

#[test]
fn reads_and_refuses(rt: HostRuntime) -> Result<(), Fail> {
    lengths(&rt)?;
    places(&rt)?;
    counts(&rt)?;
    taken(&rt, &[], &[], 0, 0)?;
    taken(&rt, &[(0, 0)], &[], 0, 0)?;
    taken(&rt, &[(0, 5), (3, 1)], &[1, 1, -2, 0, 1, 2], 4, 7)?;
    taken(
        &rt,
        &[(-274_944, 1), (537_088, 1)],
        &[FAR_ON, -FAR_ON],
        1,
        0x7fff_ffff_ffff_ffff,
    )?;
    taken(&rt, &[(262_145, 1)], &[0], 0, 0)
}
