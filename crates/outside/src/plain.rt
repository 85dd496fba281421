// What stands outside a plain sheet.
ghost use Rattle.std.specs.Prelude.{◌≡◌};
ghost use Rattle.definition.specs.Outside.{core};
ghost use Rattle.outside.specs.Words.{over};

use ast::{
    ARRAY_ID, AUDIO_DATA_ID, AUDIO_NEEDED_ID, BYTEARRAY_ID, DICT_ID, FLOAT64_ID, INT64_ID,
    STRING_ID, UIEVENT_ID,
};

// Nine names, then three records, then their fields. A name's row: the name, code 2 for a class, the class's number. A record's row: number,
// name, place of the first field, number of fields; none has methods.
const CORE: [u32; 118] = [
    // the records are rows 10 to 12
    10,
    13,
    0,
    0,
    0,
    0,
    0,
    0,
    // Int64
    1,
    2,
    INT64_ID.0,
    0,
    0,
    0,
    0,
    0,
    // Float64
    2,
    2,
    FLOAT64_ID.0,
    0,
    0,
    0,
    0,
    0,
    // String
    3,
    2,
    STRING_ID.0,
    0,
    0,
    0,
    0,
    0,
    // Array
    4,
    2,
    ARRAY_ID.0,
    0,
    0,
    0,
    0,
    0,
    // ByteArray
    5,
    2,
    BYTEARRAY_ID.0,
    0,
    0,
    0,
    0,
    0,
    // Dict
    6,
    2,
    DICT_ID.0,
    0,
    0,
    0,
    0,
    0,
    // UIEvent
    7,
    2,
    UIEVENT_ID.0,
    0,
    0,
    0,
    0,
    0,
    // AudioNeeded
    8,
    2,
    AUDIO_NEEDED_ID.0,
    0,
    0,
    0,
    0,
    0,
    // AudioData
    9,
    2,
    AUDIO_DATA_ID.0,
    0,
    0,
    0,
    0,
    0,
    // the record of UIEvent
    UIEVENT_ID.0,
    7,
    104,
    9,
    0,
    0,
    0,
    0,
    // the record of AudioNeeded
    AUDIO_NEEDED_ID.0,
    8,
    113,
    3,
    0,
    0,
    0,
    0,
    // the record of AudioData
    AUDIO_DATA_ID.0,
    9,
    116,
    2,
    0,
    0,
    0,
    0,
    // kind, window_id, key, button, x, y, dx, dy, text
    10,
    11,
    12,
    13,
    14,
    15,
    16,
    17,
    18,
    // num_samples, num_channels, device_id
    19,
    20,
    21,
    // device_id, num_samples
    21,
    19,
];

// The words of a plain sheet's outside.
pub fn core_words() -> [u32; 118]
    ensures { over result ≡ core }
{
    CORE
}
