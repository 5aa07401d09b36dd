//! The founder sets the office up, and a batch of lines.

/// The founder's five requests: a station, a letter and word of a mode, of a band and of a catalogue, and an observer.
pub const SETUP: &str = r#"
> +founder-1 1 station {"code":"703","from":"1998-01-01","name":"Catalina","to":"2199-12-31"}
< 200 receipt 1
> +founder-1 2 code {"kind":"mode","letter":"C","word":"CCD"}
< 200 receipt 2
> +founder-1 3 code {"kind":"band","letter":"V","word":"V"}
< 200 receipt 3
> +founder-1 4 code {"kind":"catalogue","letter":"W","word":"Gaia3"}
< 200 receipt 4
> +founder-1 5 enrol {"key":"observer-1","name":"Ann","role":"observer"}
< 200 receipt 5
caller 1
"#;

/// Six header lines, and four lines of one object.
pub const BATCH: &str = concat!(
    "COD 703\n",
    "OBS A. Observer\n",
    "MEA A. Observer\n",
    "TEL 0.68-m Schmidt + CCD\n",
    "ACK Batch 1\n",
    "NET Gaia2\n",
    "     P10abcd  C2024 03 15.12345 06 12 34.56 +23 45 01.2          19.5 V      703\n",
    "     P10abcd  C2024 03 15.13345 06 12 35.10 +23 45 05.0          19.4 V      703\n",
    "     P10abcd  C2024 03 15.14345 06 12 35.64 +23 45 08.8          19.6 V      703\n",
    "     P10abcd  C2024 03 15.15345 06 12 36.18 +23 45 12.6          19.5 V      703\n",
);

/// The founder's first request, and its answer.
pub const FIRST: &str = concat!(
    "+founder-1 1 station 70\n",
    "{\"code\":\"703\",\"from\":\"1998-01-01\",\"name\":\"Catalina\",\"to\":\"2199-12-31\"}",
);

pub const FIRST_ANSWER: &str = "200 10\nreceipt 1\n";
