//! Known passes, each with its texts in V1, V2 and JSON.

use pass_forms::Form;

pub(crate) static FORMS: [Form; 3] = [Form::V1, Form::V2, Form::Json];

/// The pass of libmacaroons' README.
pub(crate) static KNOWN: [&str; 3] = [
    "MDAxY2xvY2F0aW9uIGh0dHA6Ly9teWJhbmsvCjAwMjZpZGVudGlmaWVyIHdlIHVzZWQgb3VyIHNlY3JldCBrZXkKMDAxNmNpZCB0ZXN0ID0gY2F2ZWF0CjAwMmZzaWduYXR1cmUgGXusegRK8zMyhluSZuJtSTvdZopmDkTYjOGpmMI9vWcK",
    "AgEOaHR0cDovL215YmFuay8CFndlIHVzZWQgb3VyIHNlY3JldCBrZXkAAg10ZXN0ID0gY2F2ZWF0AAAGIBl7rHoESvMzMoZbkmbibUk73WaKZg5E2IzhqZjCPb1n",
    "{\"c\":[{\"i\":\"test = caveat\"}],\"i\":\"we used our secret key\",\"l\":\"http://mybank/\",\"s64\":\"GXusegRK8zMyhluSZuJtSTvdZopmDkTYjOGpmMI9vWc\",\"v\":2}",
];

pub(crate) static BARE: [&str; 3] = [
    "MDAxY2xvY2F0aW9uIGh0dHA6Ly9teWJhbmsvCjAwMjZpZGVudGlmaWVyIHdlIHVzZWQgb3VyIHNlY3JldCBrZXkKMDAyZnNpZ25hdHVyZSDj2eApCFJsTAA5rhURQRXZf91ovyujebNCqvD2F9BVLwo",
    "AgEOaHR0cDovL215YmFuay8CFndlIHVzZWQgb3VyIHNlY3JldCBrZXkAAAYg49ngKQhSbEwAOa4VEUEV2X_daL8ro3mzQqrw9hfQVS8",
    "{\"c\":[],\"i\":\"we used our secret key\",\"l\":\"http://mybank/\",\"s64\":\"49ngKQhSbEwAOa4VEUEV2X_daL8ro3mzQqrw9hfQVS8\",\"v\":2}",
];

pub(crate) static EXAMPLE: [&str; 3] = [
    "MDAyMWxvY2F0aW9uIGh0dHA6Ly9leGFtcGxlLm9yZy8KMDAxNWlkZW50aWZpZXIga2V5aWQKMDAyZnNpZ25hdHVyZSB83ueSURxbxvUoSFgF3-myTnheKOKpkwH51xHGCeOO9wo",
    "AgETaHR0cDovL2V4YW1wbGUub3JnLwIFa2V5aWQAAAYgfN7nklEcW8b1KEhYBd_psk54XijiqZMB-dcRxgnjjvc",
    "{\"c\":[],\"i\":\"keyid\",\"l\":\"http://example.org/\",\"s64\":\"fN7nklEcW8b1KEhYBd_psk54XijiqZMB-dcRxgnjjvc\",\"v\":2}",
];

pub(crate) static UNLOCATED: [&str; 3] = [
    "MDAwZWxvY2F0aW9uIAowMDE1aWRlbnRpZmllciBrZXlpZAowMDJmc2lnbmF0dXJlIAcHBwcHBwcHBwcHBwcHBwcHBwcHBwcHBwcHBwcHBwcHCg",
    "AgIFa2V5aWQAAAYgBwcHBwcHBwcHBwcHBwcHBwcHBwcHBwcHBwcHBwcHBwc",
    "{\"c\":[],\"i\":\"keyid\",\"s64\":\"BwcHBwcHBwcHBwcHBwcHBwcHBwcHBwcHBwcHBwcHBwc\",\"v\":2}",
];

/// An independent program computed the passes of two keys, whose names have 1 and 24 letters.
pub(crate) static OF_1_LETTER: [&str; 3] = [
    "MDAxN2xvY2F0aW9uIGNsdWItZGVzawowMDE1aWRlbnRpZmllciBrZXk6YQowMDJmc2lnbmF0dXJlINUNOO5RwGYyFrLLxURCWimOR2Ke7JygR9qsvDKEn0veCg",
    "AgEJY2x1Yi1kZXNrAgVrZXk6YQAABiDVDTjuUcBmMhayy8VEQlopjkdinuycoEfarLwyhJ9L3g",
    "{\"c\":[],\"i\":\"key:a\",\"l\":\"club-desk\",\"s64\":\"1Q047lHAZjIWssvFREJaKY5HYp7snKBH2qy8MoSfS94\",\"v\":2}",
];

pub(crate) static OF_24_LETTERS: [&str; 3] = [
    "MDAxN2xvY2F0aW9uIGNsdWItZGVzawowMDJjaWRlbnRpZmllciBrZXk6YWJjZGVmZ2hpamtsbW5vcHFyc3R1dnd4CjAwMmZzaWduYXR1cmUgE2VHhUaPyb3pmYgFRMdlNdU60H1ry2MS_d9DlLiV8XEK",
    "AgEJY2x1Yi1kZXNrAhxrZXk6YWJjZGVmZ2hpamtsbW5vcHFyc3R1dnd4AAAGIBNlR4VGj8m96ZmIBUTHZTXVOtB9a8tjEv3fQ5S4lfFx",
    "{\"c\":[],\"i\":\"key:abcdefghijklmnopqrstuvwx\",\"l\":\"club-desk\",\"s64\":\"E2VHhUaPyb3pmYgFRMdlNdU60H1ry2MS_d9DlLiV8XE\",\"v\":2}",
];
