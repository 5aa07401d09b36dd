//! What is told of the history with every verb. Each answer was worked out beside the program, by the rules of
//! docs/RULES.md.

/// What is told of observations, objects, half-months and names.
pub(super) const TOLD: &str = r#"
> observer-1 0 tally
< 200 entries 54
isolated 2
objects 23
retracted 6
accepted 31
> observer-2 0 object 2024 EA
< 200 principal 2024 EA
number 619999
name 2024 EA
name 2024 EB
obs 19 track 9
obs 1 track 1
obs 2 track 1
obs 3 track 2
obs 4 track 2
obs 6 track 3
obs 7 track 4
obs 8 track 4
obs 9 track 5
obs 10 track 5
obs 27 track 13
> observer-2 0 object 2024 EB
< 200 principal 2024 EA
number 619999
name 2024 EA
name 2024 EB
obs 19 track 9
obs 1 track 1
obs 2 track 1
obs 3 track 2
obs 4 track 2
obs 6 track 3
obs 7 track 4
obs 8 track 4
obs 9 track 5
obs 10 track 5
obs 27 track 13
> observer-2 0 object 2024 EC
< 200 principal 2024 EC
number 620000
name 2024 EC
name 2024 EE
obs 12 track 6
obs 13 track 7
obs 14 track 7
obs 23 track 11
obs 24 track 11
obs 16 track 8
obs 17 track 8
obs 18 track 8
obs 28 track 14
obs 29 track 15
> observer-2 0 object 2024 ED
< 200 principal 2024 ED
number 620001
name 2024 CA
name 2024 ED
obs 21 track 10
obs 22 track 10
> observer-2 0 object 2024 EF
< 200 principal 2024 EF
number 620002
name 2024 EF
> observer-2 0 object 2024 CA
< 200 principal 2024 ED
number 620001
name 2024 CA
name 2024 ED
obs 21 track 10
obs 22 track 10
> observer-2 0 object 2024 EG
< 404 refused 5 UnknownThing designation 2024 EG
> observer-2 0 object 2025 AB
< 200 principal 2025 AB
number none
name 2025 AB
> +founder-1 0 isolated
< 200 track 16 live 2
> officer-01 0 halfmonth 2024 E
< 200 halfmonth 2024 E given 6 next 2024 EG
> officer-01 0 halfmonth 2024 C
< 200 halfmonth 2024 C given 1 next 2024 CB
> officer-01 0 halfmonth 2024 D
< 200 halfmonth 2024 D given 0 next 2024 DA
> officer-01 0 halfmonth 2025 A
< 200 halfmonth 2025 A given 2 next 2025 AC
> observer-1 0 name 619999
< 200 printed 619999
packed z9999
principal 2024 EA
> observer-1 0 name ~0000
< 200 printed 620000
packed ~0000
principal 2024 EC
> observer-1 0 name 620001
< 200 printed 620001
packed ~0001
principal 2024 ED
> observer-1 0 name 620002
< 200 printed 620002
packed ~0002
principal 2024 EF
> observer-1 0 name 620003
< 200 printed 620003
packed ~0003
principal none
> observer-1 0 name 2024 EE
< 200 printed 2024 EE
packed K24E00E
principal 2024 EC
> observer-1 0 name K24E00G
< 200 printed 2024 EG
packed K24E00G
principal none
> observer-1 0 name 2024 CA
< 200 printed 2024 CA
packed K24C00A
principal 2024 ED
"#;

/// What is told of tracklets and of callers' own acts.
pub(super) const TRACKS: &str = r#"
> observer-2 0 tracklet 1
< 200 track 1 station 703 name A1
home 2024 EA principal 2024 EA
obs 1 live 2024-03-01T00:00:00.000000000Z 10.000000000000 +01.000000000000
obs 2 live 2024-03-01T00:10:00.000000000Z 10.100000000000 +01.000000000000
> observer-2 0 tracklet 3
< 200 track 3 station 703 name A3
home 2024 EB principal 2024 EA
obs 5 retracted 2024-03-02T00:00:00.000000000Z 12.000000000000 +01.000000000000
obs 6 live 2024-03-02T00:10:00.000000000Z 12.100000000000 +01.000000000000
> observer-2 0 tracklet 8
< 200 track 8 station 703 name P10abcd
home 2024 EE principal 2024 EC
obs 15 retracted 2024-03-15T02:57:46.080000000Z 93.144000000000 +23.750333333333
obs 16 live 2024-03-15T03:12:10.080000000Z 93.146250000000 +23.751388888889
obs 17 live 2024-03-15T03:26:34.080000000Z 93.148500000000 +23.752444444444
obs 18 live 2024-03-15T03:40:58.080000000Z 93.150750000000 +23.753500000000
> observer-2 0 tracklet 9
< 200 track 9 station G96 name Q000001
home 2024 EB principal 2024 EA
obs 19 live 2024-02-15T23:59:59.913600000Z 93.143750000000 -00.000333333333
obs 20 retracted 2024-02-16T18:00:00.000000000Z 93.143750000000 -00.000333333333
> observer-2 0 tracklet 12
< 200 track 12 station 703 name B1
home 2024 EF principal 2024 EF
obs 25 retracted 2024-03-08T00:00:00.000000000Z 20.000000000000 +01.000000000000
obs 26 retracted 2024-03-08T13:00:00.000000000Z 20.100000000000 +01.000000000000
> observer-2 0 tracklet 13
< 200 track 13 station 703 name 619999
home 2024 EA principal 2024 EA
obs 27 live 2024-03-20T00:00:00.000000000Z 13.000000000000 +01.000000000000
> observer-2 0 tracklet 14
< 200 track 14 station G96 name 2024 EE
home 2024 EE principal 2024 EC
obs 28 live 2024-03-20T01:00:00.123456789Z 359.999999999900 -01.000000000001
> observer-1 0 tracklet 17
< 404 refused 5 UnknownThing tracklet 17
> observer-1 0 receipt 1
< 200 receipt 12
accepted 10 refused 0
line 5 obs 1 track 1
line 6 obs 2 track 1
line 7 obs 3 track 2
line 8 obs 4 track 2
line 9 obs 5 track 3
line 10 obs 6 track 3
line 11 obs 7 track 4
line 12 obs 8 track 4
line 13 obs 9 track 5
line 14 obs 10 track 5
> observer-2 0 receipt 2
< 200 receipt 15
accepted 2 refused 0
line 1 obs 19 track 9
line 2 obs 20 track 9
> officer-01 0 receipt 1
< 200 receipt 16
accepted 6 refused 0
line 5 obs 21 track 10
line 6 obs 22 track 10
line 7 obs 23 track 11
line 8 obs 24 track 11
line 9 obs 25 track 12
line 10 obs 26 track 12
> observer-2 0 receipt 9
< 404 refused 5 UnknownThing receipt 9
> officer-01 0 receipt 11
< 200 receipt 42
"#;

/// The catalogue at the end.
pub(super) const CATALOGUE: &str = concat!(
    "catalogue 1\n",
    "entries 54\n",
    "isolated 2\n",
    "objects 23\n",
    "retracted 6\n",
    "accepted 31\n",
    "object 2024 EA number 619999 observations 11\n",
    "also 2024 EB\n",
    "z9999K24E00A  B2024 02 15.99999906 12 34.5  -00 00 01.2          17.25R      G96\n",
    "z9999K24E00A* C2024 03 01.00000000 40 00.000+01 00 00.00               W     703\n",
    "z9999K24E00A  C2024 03 01.00694400 40 24.000+01 00 00.00               W     703\n",
    "z9999K24E00A  C2024 03 01.54166700 44 00.000+01 00 00.00               W     703\n",
    "z9999K24E00A  C2024 03 01.54861100 44 24.000+01 00 00.00               W     703\n",
    "z9999K24E00A  C2024 03 02.00694400 48 24.000+01 00 00.00               W     703\n",
    "z9999K24E00A  C2024 03 02.54166700 52 00.000+01 00 00.00               W     703\n",
    "z9999K24E00A  C2024 03 02.54861100 52 24.000+01 00 00.00               W     703\n",
    "z9999K24E00A  C2024 03 03.00000000 56 00.000+01 00 00.00               W     703\n",
    "z9999K24E00A  C2024 03 03.00694400 56 24.000+01 00 00.00               W     703\n",
    "z9999K24E00A  C2024 03 20.00000000 52 00.000+01 00 00.00         20.1 RU     703\n",
    "object 2024 EC number 620000 observations 10\n",
    "also 2024 EE\n",
    "~0000K24E00C  C2024 03 04.00694401 00 24.000+01 00 00.00               W     703\n",
    "~0000K24E00C  C2024 03 04.54166701 04 00.000+01 00 00.00               W     703\n",
    "~0000K24E00C  C2024 03 04.54861101 04 24.000+01 00 00.00               W     703\n",
    "~0000K24E00C  C2024 03 07.00000001 16 00.000+01 00 00.00               W     703\n",
    "~0000K24E00C  C2024 03 07.54166701 16 24.000+01 00 00.00               W     703\n",
    "~0000K24E00C  C2024 03 15.13345 06 12 35.10 +23 45 05.0          19.4 V      703\n",
    "~0000K24E00C  C2024 03 15.14345 06 12 35.64 +23 45 08.8          19.6 V      703\n",
    "~0000K24E00C  C2024 03 15.15345 06 12 36.18 +23 45 12.6          19.5 V      703\n",
    "~0000K24E00C  B2024 03 20.04166800 00 00.000-01 00 00.00         20.13VW     G96\n",
    "~0000K24E00C  B2024 03 20.08333300 52 48.000+01 00 00.00               W     G96\n",
    "object 2024 ED number 620001 observations 2\n",
    "also 2024 CA\n",
    "~0001K24E00D* C2024 03 06.00000001 12 00.000+01 00 00.00               W     703\n",
    "~0001K24E00D  C2024 03 06.54166701 12 24.000+01 00 00.00               W     703\n",
    "object 2024 EF number 620002 observations 0\n",
    "object 2025 AB number none observations 0\n",
    "track 16 P10abcd\n",
    "     P10abcd  C2024 03 15.12345 06 12 34.56 +23 45 01.2          19.5 V      703\n",
    "     P10abcd  C2024 03 15.16345 06 12 36.72 +23 45 16.4          19.5 V      703\n",
    "end\n",
);
