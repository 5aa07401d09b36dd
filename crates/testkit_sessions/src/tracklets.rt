//! Tracklets in ADES, with the answers to their batches, and identifications of the objects that they become.

/// Two tracklets of one object, of which the first observation falls a thousandth of a second before midnight.
pub const MIDNIGHT: &str = concat!(
    "# version=2017\n",
    "# observatory\n",
    "! mpcCode 703\n",
    "trkSub|mode|stn|obsTime|ra|dec|astCat|mag|band\n",
    "AAA1|CCD|703|2024-03-15T23:59:59.999Z|150.0|-5.5|Gaia3|20.25|V\n",
    "AAA1|CCD|703|2024-03-16T00:30:00Z|150.01|-5.5|Gaia3|20.3|V\n",
    "AAA2|CCD|703|2024-03-16T12:00:00Z|150.2|-5.5|Gaia3\n",
    "AAA2|CCD|703|2024-03-16T12:30:00Z|150.21|-5.5|Gaia3\n",
);

/// What the observer is told of them where they are the first batch.
pub const MIDNIGHT_TEXT: &str = concat!(
    "receipt 6\n",
    "accepted 4 refused 0\n",
    "line 5 obs 1 track 1\n",
    "line 6 obs 2 track 1\n",
    "line 7 obs 3 track 2\n",
    "line 8 obs 4 track 2\n",
);

/// Three tracklets: from the first observation it is 11 hours and 59 minutes to the last one of the second, and 12
/// hours to that of the third.
pub const NIGHT: &str = concat!(
    "# version=2017\n",
    "# observatory\n",
    "! mpcCode 703\n",
    "trkSub|mode|stn|obsTime|ra|dec|astCat\n",
    "B1|CCD|703|2024-03-20T00:00:00Z|10.0|1.0|Gaia3\n",
    "B1|CCD|703|2024-03-20T00:10:00Z|10.0|1.0|Gaia3\n",
    "B2|CCD|703|2024-03-20T11:49:00Z|11.0|1.0|Gaia3\n",
    "B2|CCD|703|2024-03-20T11:59:00Z|11.0|1.0|Gaia3\n",
    "B3|CCD|703|2024-03-20T11:50:00Z|12.0|1.0|Gaia3\n",
    "B3|CCD|703|2024-03-20T12:00:00Z|12.0|1.0|Gaia3\n",
);

/// What the observer is told of them as the eighth act, after four observations and two tracklets.
pub const NIGHT_TEXT: &str = concat!(
    "receipt 8\n",
    "accepted 6 refused 0\n",
    "line 5 obs 5 track 3\n",
    "line 6 obs 6 track 3\n",
    "line 7 obs 7 track 4\n",
    "line 8 obs 8 track 4\n",
    "line 9 obs 9 track 5\n",
    "line 10 obs 10 track 5\n",
);

/// Five tracklets of two observations each, of which each second one is 13 hours after the one before.
pub const FIVE: &str = concat!(
    "# version=2017\n",
    "# observatory\n",
    "! mpcCode 703\n",
    "trkSub|mode|stn|obsTime|ra|dec|astCat\n",
    "A1|CCD|703|2024-03-01T00:00:00Z|10.0|1.0|Gaia3\n",
    "A1|CCD|703|2024-03-01T00:10:00Z|10.1|1.0|Gaia3\n",
    "A2|CCD|703|2024-03-01T13:00:00Z|11.0|1.0|Gaia3\n",
    "A2|CCD|703|2024-03-01T13:10:00Z|11.1|1.0|Gaia3\n",
    "A3|CCD|703|2024-03-02T00:00:00Z|12.0|1.0|Gaia3\n",
    "A3|CCD|703|2024-03-02T00:10:00Z|12.1|1.0|Gaia3\n",
    "A4|CCD|703|2024-03-02T13:00:00Z|13.0|1.0|Gaia3\n",
    "A4|CCD|703|2024-03-02T13:10:00Z|13.1|1.0|Gaia3\n",
    "A5|CCD|703|2024-03-03T00:00:00Z|14.0|1.0|Gaia3\n",
    "A5|CCD|703|2024-03-03T00:10:00Z|14.1|1.0|Gaia3\n",
);

/// What the observer is told of them where they are the first batch.
pub const FIVE_TEXT: &str = concat!(
    "receipt 6\n",
    "accepted 10 refused 0\n",
    "line 5 obs 1 track 1\n",
    "line 6 obs 2 track 1\n",
    "line 7 obs 3 track 2\n",
    "line 8 obs 4 track 2\n",
    "line 9 obs 5 track 3\n",
    "line 10 obs 6 track 3\n",
    "line 11 obs 7 track 4\n",
    "line 12 obs 8 track 4\n",
    "line 13 obs 9 track 5\n",
    "line 14 obs 10 track 5\n",
);

/// Two tracklets more, after those five.
pub const TWO: &str = concat!(
    "# version=2017\n",
    "# observatory\n",
    "! mpcCode 703\n",
    "trkSub|mode|stn|obsTime|ra|dec|astCat\n",
    "A6|CCD|703|2024-03-04T00:00:00Z|15.0|1.0|Gaia3\n",
    "A6|CCD|703|2024-03-04T00:10:00Z|15.1|1.0|Gaia3\n",
    "A7|CCD|703|2024-03-04T13:00:00Z|16.0|1.0|Gaia3\n",
    "A7|CCD|703|2024-03-04T13:10:00Z|16.1|1.0|Gaia3\n",
);

/// Three tracklets of two observations each, which are 13 hours apart.
pub const THREE: &str = concat!(
    "# version=2017\n",
    "# observatory\n",
    "! mpcCode 703\n",
    "trkSub|mode|stn|obsTime|ra|dec|astCat\n",
    "A8|CCD|703|2024-03-06T00:00:00Z|18.0|1.0|Gaia3\n",
    "A8|CCD|703|2024-03-06T13:00:00Z|18.1|1.0|Gaia3\n",
    "A9|CCD|703|2024-03-07T00:00:00Z|19.0|1.0|Gaia3\n",
    "A9|CCD|703|2024-03-07T13:00:00Z|19.1|1.0|Gaia3\n",
    "B1|CCD|703|2024-03-08T00:00:00Z|20.0|1.0|Gaia3\n",
    "B1|CCD|703|2024-03-08T13:00:00Z|20.1|1.0|Gaia3\n",
);
