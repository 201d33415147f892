use crate::refusal::WriteRefusal;
use crate::write::write;
use books::list::ListBook;
use books::record::Record;

// A record: condition, remedy, next, share, amount.
type Entry = (usize, usize, usize, u32, i64);

// The worked lock.
const LOCK: [Entry; 15] = [
    (0, 0, 1, 14, 0),
    (0, 0, 2, 1, 0),
    (0, 0, 3, 1, 0),
    (0, 1, 1, 16, -4000),
    (0, 2, 0, 16, -6000),
    (1, 0, 1, 12, -1000),
    (1, 0, 2, 2, -1000),
    (1, 0, 3, 2, -1000),
    (1, 1, 1, 16, -4000),
    (1, 2, 0, 16, -6000),
    (2, 0, 2, 8, -3000),
    (2, 0, 3, 8, -3000),
    (2, 1, 1, 16, -4000),
    (2, 2, 0, 16, -6000),
    (3, 2, 0, 16, -6000),
];

const LOCK_FILE: &[u8] = b"B\t4\t3\t16\n\
R\t0\t0\t1\t14\t0\n\
R\t0\t0\t2\t1\t0\n\
R\t0\t0\t3\t1\t0\n\
R\t0\t1\t1\t16\t-4000\n\
R\t0\t2\t0\t16\t-6000\n\
R\t1\t0\t1\t12\t-1000\n\
R\t1\t0\t2\t2\t-1000\n\
R\t1\t0\t3\t2\t-1000\n\
R\t1\t1\t1\t16\t-4000\n\
R\t1\t2\t0\t16\t-6000\n\
R\t2\t0\t2\t8\t-3000\n\
R\t2\t0\t3\t8\t-3000\n\
R\t2\t1\t1\t16\t-4000\n\
R\t2\t2\t0\t16\t-6000\n\
R\t3\t2\t0\t16\t-6000\n\
C\t0\t0\nC\t1\t0\nC\t2\t0\nC\t3\t0\nE\n";

// The largest sizes, shares, amounts and worths.
const LARGE: [Entry; 3] = [
    (0, 0, 0, 1, 1_000_000),
    (0, 7, 31, 999, -1),
    (31, 7, 31, 1000, -1_000_000),
];

const LARGE_WORTHS: [i64; 32] = [
    -1_000_000, 1_000_000, -999_999, 999_999, -100_000, 100_000, -1, 1, -9, 9, -10, 10, -99, 99,
    -100, 100, 0, 0, 0, 0, 0, 0, 0, 0, 0, 0, 0, 0, 0, 0, 0, 1000,
];

const LARGE_FILE: &[u8] = b"B\t32\t8\t1000\n\
R\t0\t0\t0\t1\t1000000\n\
R\t0\t7\t31\t999\t-1\n\
R\t31\t7\t31\t1000\t-1000000\n\
C\t0\t-1000000\nC\t1\t1000000\nC\t2\t-999999\nC\t3\t999999\nC\t4\t-100000\nC\t5\t100000\n\
C\t6\t-1\nC\t7\t1\nC\t8\t-9\nC\t9\t9\nC\t10\t-10\nC\t11\t10\nC\t12\t-99\nC\t13\t99\nC\t14\t-100\n\
C\t15\t100\nC\t16\t0\nC\t17\t0\nC\t18\t0\nC\t19\t0\nC\t20\t0\nC\t21\t0\nC\t22\t0\nC\t23\t0\n\
C\t24\t0\nC\t25\t0\nC\t26\t0\nC\t27\t0\nC\t28\t0\nC\t29\t0\nC\t30\t0\nC\t31\t1000\nE\n";

// A book, and its file.
#[derive(Clone, Copy)]
struct Case {
    sizes: (usize, usize, u32),
    records: &'static [Entry],
    worths: &'static [i64],
    file: &'static [u8],
}

const CASES: [Case; 3] = [
    Case {
        sizes: (4, 3, 16),
        records: &LOCK,
        worths: &[0, 0, 0, 0],
        file: LOCK_FILE,
    },
    Case {
        sizes: (1, 1, 1),
        records: &[],
        worths: &[0],
        file: b"B\t1\t1\t1\nC\t0\t0\nE\n",
    },
    Case {
        sizes: (32, 8, 1000),
        records: &LARGE,
        worths: &LARGE_WORTHS,
        file: LARGE_FILE,
    },
];

fn record_of(entry: Entry) -> Record {
    let (condition, remedy, next, share, amount) = entry;
    Record {
        condition,
        remedy,
        next,
        share,
        amount,
    }
}

#[test]
fn files(rt: HostRuntime) {
    for case in CASES {
        let count = case.records.len();
        assert!(rt; count <= 15);
        let mut records = [Record::default(); 15];
        for (record, entry) in records.iter_mut().zip(case.records) {
            *record = record_of(*entry);
        }
        let (conditions, remedies, parts) = case.sizes;
        let mut book = ListBook::blank();
        let made = book.remake(conditions, remedies, parts, &records[..count], case.worths);
        assert!(rt; made.is_ok());
        let length = case.file.len();
        assert!(rt; 0 < length && length < 512);
        let mut buffer = [7; 512];
        let short = write(&book, &mut buffer[..length - 1]);
        assert_eq!(rt; short, Err(WriteRefusal::Short));
        assert!(rt; buffer.iter().all(|byte| *byte == 7));
        assert_eq!(rt; write(&book, &mut buffer[..length]), Ok(length));
        assert!(rt; &buffer[..length] == case.file);
        assert!(rt; buffer[length..].iter().all(|byte| *byte == 7));
    }
}
