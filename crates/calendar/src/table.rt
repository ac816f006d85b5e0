// The table of month starts.
ghost use Rattle.std.specs.Prelude.{◌≡◌, suc, ◌-◌, ◌*◌, ◌<◌, ◌≤◌, true};
ghost use Rattle.calendar.specs.Months.{lengths_from, lengths, days_before, first_day_of};
ghost use Rattle.calendar.specs.Starts.{starts_from, Starts};

use crate::day::Day;

// The day of the cycle on which each of the 360 months begins.
const STARTS: [u16; 360] = [
    1, 31, 60, 90, 119, 149, 178, 208, 237, 267, 296, 326, 355, 385, 414, 444, 473, 503, 532, 562,
    591, 621, 650, 680, 710, 740, 769, 799, 828, 858, 887, 917, 946, 976, 1005, 1035, 1064, 1094,
    1123, 1153, 1182, 1212, 1241, 1271, 1300, 1330, 1359, 1389, 1418, 1448, 1477, 1507, 1536, 1566,
    1595, 1625, 1654, 1684, 1713, 1743, 1773, 1803, 1832, 1862, 1891, 1921, 1950, 1980, 2009, 2039,
    2068, 2098, 2127, 2157, 2186, 2216, 2245, 2275, 2304, 2334, 2363, 2393, 2422, 2452, 2482, 2512,
    2541, 2571, 2600, 2630, 2659, 2689, 2718, 2748, 2777, 2807, 2836, 2866, 2895, 2925, 2954, 2984,
    3013, 3043, 3072, 3102, 3131, 3161, 3190, 3220, 3249, 3279, 3308, 3338, 3367, 3397, 3426, 3456,
    3485, 3515, 3545, 3575, 3604, 3634, 3663, 3693, 3722, 3752, 3781, 3811, 3840, 3870, 3899, 3929,
    3958, 3988, 4017, 4047, 4076, 4106, 4135, 4165, 4194, 4224, 4253, 4283, 4312, 4342, 4371, 4401,
    4430, 4460, 4489, 4519, 4548, 4578, 4608, 4638, 4667, 4697, 4726, 4756, 4785, 4815, 4844, 4874,
    4903, 4933, 4962, 4992, 5021, 5051, 5080, 5110, 5139, 5169, 5198, 5228, 5257, 5287, 5316, 5346,
    5375, 5405, 5434, 5464, 5493, 5523, 5552, 5582, 5611, 5641, 5671, 5701, 5730, 5760, 5789, 5819,
    5848, 5878, 5907, 5937, 5966, 5996, 6025, 6055, 6084, 6114, 6143, 6173, 6202, 6232, 6261, 6291,
    6320, 6350, 6380, 6410, 6439, 6469, 6498, 6528, 6557, 6587, 6616, 6646, 6675, 6705, 6734, 6764,
    6793, 6823, 6852, 6882, 6911, 6941, 6970, 7000, 7029, 7059, 7088, 7118, 7147, 7177, 7206, 7236,
    7265, 7295, 7324, 7354, 7383, 7413, 7443, 7473, 7502, 7532, 7561, 7591, 7620, 7650, 7679, 7709,
    7738, 7768, 7797, 7827, 7856, 7886, 7915, 7945, 7974, 8004, 8033, 8063, 8092, 8122, 8151, 8181,
    8210, 8240, 8269, 8299, 8328, 8358, 8387, 8417, 8446, 8476, 8506, 8536, 8565, 8595, 8624, 8654,
    8683, 8713, 8742, 8772, 8801, 8831, 8860, 8890, 8919, 8949, 8978, 9008, 9037, 9067, 9096, 9126,
    9155, 9185, 9215, 9245, 9274, 9304, 9333, 9363, 9392, 9422, 9451, 9481, 9510, 9540, 9569, 9599,
    9628, 9658, 9687, 9717, 9746, 9776, 9805, 9835, 9864, 9894, 9923, 9953, 9982, 10012, 10041,
    10071, 10100, 10130, 10159, 10189, 10218, 10248, 10278, 10308, 10337, 10367, 10396, 10426,
    10455, 10485, 10514, 10544, 10573, 10603,
];

// The table as a slice, tested against the lengths that the rule gives.
fn tested() -> &'static [u16]
    ensures { starts_from 1 (lengths_from 0 360) result.now ≡ true }
{
    &STARTS
}

// The days on which the months of the cycle start.
pub(crate) fn month_starts() -> &'static [u16]
    ensures { Starts lengths result.now }
{
    tested()
}

// The month of the cycle, counted from 0, in which a day falls.
pub(crate) fn month_of(starts: &[u16], day: Day) -> usize
    requires { Starts lengths starts.now }
    ensures within { result < 360 }
    ensures from { days_before result lengths < day.number }
    ensures until { day.number ≤ days_before (suc result) lengths }
{
    match starts.binary_search(&day.number) {
        Ok(k) => k,
        Err(k) => k - 1,
    }
}

// The month of the cycle with which a year begins.
fn first_month(year: u16) -> usize
    requires { 1 ≤ year }
    ensures { result ≡ 12 * (year - 1) }
{
    12 * (usize::from(year) - 1)
}

// The first day of a year.
pub(crate) fn first_day(year: u16) -> Day
    requires first { 1 ≤ year }
    requires last { year ≤ 30 }
    ensures { result.number ≡ first_day_of year }
{
    let starts = month_starts();
    let number = starts[first_month(year)];
    Day { number }
}
